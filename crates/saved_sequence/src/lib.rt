// A recording in chunks that is saved, read back and continued. Definitions and theorems, no functions.
#![tactic(auto)]
