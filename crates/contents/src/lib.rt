// What the searches of refusals 7 to 9 return. Definitions and laws; no functions.
#![tactic(auto)]
