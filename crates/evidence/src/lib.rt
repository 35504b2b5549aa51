// Refusal 7 (entry): the tables of a message, checked against the program's rows.
#![tactic(auto)]

pub mod entries;
pub mod ranges;
