// Names and scopes of a program whose rows fit: refusals 4 and 5.
#![tactic(auto)]

pub mod names;
pub mod scope;
