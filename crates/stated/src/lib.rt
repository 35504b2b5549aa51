// What is asked of one state.
#![tactic(auto)]

pub mod calls;
pub mod gives;
pub mod states;
