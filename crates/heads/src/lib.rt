// Query heads one after the other, and the present caches. Definitions and laws; no functions.
#![tactic(auto)]
