// The block scanner: html_flow.rs and what it leans on.
#![tactic(auto)]

pub mod block;
pub mod html_flow;
pub mod partial_non_lazy_continuation;
pub mod partial_space_or_tab;
pub mod scan;
pub mod tokenizer;
