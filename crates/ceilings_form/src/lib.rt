// The ceilings' entries in form, refusal 10; what a limit allows.
#![tactic(auto)]

pub mod entries;
pub mod limits;
