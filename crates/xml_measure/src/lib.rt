// The committed document: its rows, the length of its text, and whether it can be written at all.
#![tactic(auto)]

pub mod committed;
pub mod measuring;
