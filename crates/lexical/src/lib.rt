// The lower crate: byte classes, names, points and lines, and copying bytes.
#![tactic(auto)]

pub mod byte;
pub mod constant;
pub mod copy;
pub mod event;
pub mod line;
pub mod slice;
pub mod tokenizer;
