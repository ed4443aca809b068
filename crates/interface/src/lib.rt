// The call record and the answer as numbers, and what the exported functions give back. Definitions and laws; no functions.
#![tactic(auto)]

// An answer as numbers.
#[derive(Clone, Copy)]
pub struct Numbers {
    pub number: u32,
    pub tensor: u64,
    pub index: u64,
    pub total: u64,
    pub masked: u64,
}
