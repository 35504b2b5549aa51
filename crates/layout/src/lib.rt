// How the rows of a program that fit lie: where expressions and patterns end.
#![tactic(auto)]

pub mod ends;
pub mod tables;
