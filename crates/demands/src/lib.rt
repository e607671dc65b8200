// The demands of the paper, for every function that is called from outside: definitions and theorems only.
#![tactic(auto)]
