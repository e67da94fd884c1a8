// Showing a bulletin beside given spans, and its stretches between them.
#![tactic(auto)]

pub mod list;
pub mod show;
pub mod stretch;
