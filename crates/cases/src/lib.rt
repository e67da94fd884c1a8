// Test cases: each is a line of standard input, and its answer is a line of standard output. run.rt says what each kind of case is.
#![tactic(auto)]

mod case;
mod conversions;
mod escape;
mod found;
mod hex;
mod lines;
mod readers;
mod recorded;
pub mod run;
mod scans;
mod screens;
mod show;
mod traces;
