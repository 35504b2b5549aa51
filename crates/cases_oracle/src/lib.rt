// Tables of cases that the other implementation wrote, and those of counters, computed: no code.
#![tactic(auto)]
