// The C interface: include/foringamo.h. A slice is passed as a pointer and a length, and every result comes back by value.
//
// On a refusal every count and stop is 0, the carry is the one passed in, and no lent byte changes.
#![tactic(auto)]

pub mod block;
pub mod conversion;
pub mod filter;
pub mod found;
pub mod inline;
pub mod lines;
pub mod record;
pub mod shown;
mod written;
