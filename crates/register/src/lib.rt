// The conditions of acceptance as theorems over the public contracts: definitions and laws, no function.
#![tactic(auto)]
