// The rows of a program, and the readers of lists of rows and of patterns.
#![tactic(auto)]

pub mod readers;
pub mod rows;
