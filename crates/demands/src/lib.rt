// Theorems alone: the three demands, over the contract of the entry.
#![tactic(auto)]
