// The rules of a state in two short lists, and what they are read from, for contracts: definitions and laws only.
#![tactic(auto)]
