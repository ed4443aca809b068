// One row of attention: its formula. Definitions, laws and computed examples; no functions.
#![tactic(auto)]
