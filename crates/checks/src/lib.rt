// The checks of all layers, one after the other: from the words of a message to the verdict and the words written.
#![tactic(auto)]

pub mod bounds;
pub mod order;
pub mod system;
