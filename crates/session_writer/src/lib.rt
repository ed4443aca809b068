// What the writer of saved sessions rests on. Definitions and laws; no functions.
#![tactic(auto)]
