// Contents of nodes, put at the front of the lent bytes: copied as they are, and with references.
#![tactic(auto)]

pub mod copying;
pub mod escaping;
