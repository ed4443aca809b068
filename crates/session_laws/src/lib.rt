// What reading and writing saved sessions promises. Definitions and theorems, no functions.
#![tactic(auto)]
