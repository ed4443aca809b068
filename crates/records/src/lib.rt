// Records of saved files: heads, little-endian numbers, f32 bits. Definitions and laws; no functions.
#![tactic(auto)]
