// The worked examples at the edges, as statements about the definitions. No functions.
#![tactic(auto)]
