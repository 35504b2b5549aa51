// The tables of cases of the model's definitions, computed: no code here.
#![tactic(auto)]
