// The sets of patterns, filled from the last row to the first, so that a pattern finds those of its subpatterns there:
// of a constructor pattern which values it may match, and which of these find their parts among the values of the
// pattern's names; of a held name the first of the two, since it binds nothing.
#![tactic(auto)]

pub mod equals;
pub mod patterns;
