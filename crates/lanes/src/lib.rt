// The four lanes of a dot product, stored for many keys. Definitions and laws; no functions.
#![tactic(auto)]
