// Traces of scans.
#![tactic(auto)]

pub mod block;
mod pen;
mod piece;
pub mod tracer;
