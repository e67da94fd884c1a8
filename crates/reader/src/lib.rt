// The two forms that come after the core: a reader that holds the text and its index, and steps that take a scanner's state lent and changed.
//
// The step of a lent state is thin: it takes the state apart, calls a covered step and stores the fields back. `read_at`, `inline_at` and `closes_line` are for callers that hold plain values.
#![tactic(auto)]

pub mod html_flow;
pub mod html_text;
pub mod lent;
pub mod slice;
