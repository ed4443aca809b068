// The house exponential E(d), near e^-d, by the power table. Definitions and laws; no functions.
#![tactic(auto)]

// The bits of LOG2E, C1 and C2.
pub const LOG2E: u32 = 0x3fb8aa3b;

pub const C1: u32 = 0x3f317218;

pub const C2: u32 = 0x3e75fdf0;
