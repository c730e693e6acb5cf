// The pieces of an XML text, each put at the front of the lent bytes.
#![tactic(auto)]

pub mod markup;
