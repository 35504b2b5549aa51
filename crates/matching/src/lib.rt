// Which values a pattern may match, and whether its names then hold what they are to, as one number by the sets of its
// subpatterns; the rows that build values, by constructor.
#![tactic(auto)]

pub mod builds;
pub mod codes;
