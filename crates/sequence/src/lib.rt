// A recording in chunks, against one plain call over all of it. Definitions and theorems, no functions.
#![tactic(auto)]
