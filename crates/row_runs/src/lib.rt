// A row over two runs of positions, the past's and the incoming ones. Definitions and laws; no functions.
#![tactic(auto)]
