// Withholding raw HTML from a bulletin.
#![tactic(auto)]

pub mod both;
pub mod find;
pub mod withhold;
