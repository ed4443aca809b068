// What the tests of a record and of lengths rest on. Definitions and laws; no functions.
#![tactic(auto)]
