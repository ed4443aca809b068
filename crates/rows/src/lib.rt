// The rows of one query head as a unit of work. Definitions and laws; no functions.
#![tactic(auto)]
