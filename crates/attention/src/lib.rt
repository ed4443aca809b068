// The whole call of attention.
#![tactic(auto)]
