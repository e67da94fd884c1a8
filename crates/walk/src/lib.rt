// The walk over the pieces of a bulletin.
#![tactic(auto)]

pub mod bulletin;
mod closers;
pub mod iter;
mod paragraph;
pub mod pieces;
