// The inline scanner: html_text.rs and what it leans on of tokenizer.rs.
#![tactic(auto)]

pub mod html_text;
pub mod scan;
pub mod tokenizer;
