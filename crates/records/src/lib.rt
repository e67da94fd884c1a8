// The records of a trace, read and written with narrow or with wide fields, and the conversion of the one into the other.
#![tactic(auto)]

pub mod convert;
pub mod event;
mod kept;
pub mod reader;
pub mod writer;
