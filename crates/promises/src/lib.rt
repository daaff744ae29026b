// Theorems only: what the crates promise, gathered in the order of the demands.
#![tactic(auto)]
