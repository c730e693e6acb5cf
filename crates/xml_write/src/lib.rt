// Write: the committed document is selected, its text is measured, and it is written into the lent bytes.
#![tactic(auto)]

mod node;
mod open;
pub mod writer;
