// GitHub's tag filter over a bulletin.
#![tactic(auto)]

pub mod filter;
mod part;
mod tag;
