// The answers of the reader and the writer of saved sessions as numbers, and what the exported functions give back. Definitions and laws; no functions.
#![tactic(auto)]

// A reading as numbers.
#[derive(Clone, Copy)]
pub struct ReadingNumbers {
    pub number: u32,
    pub batches: u64,
    pub kvheads: u64,
    pub size: u64,
    pub vsize: u64,
    pub positions: u64,
    pub used: u64,
    pub place: u64,
}

// A saving as numbers.
#[derive(Clone, Copy)]
pub struct SavingNumbers {
    pub number: u32,
    pub positions: u64,
    pub used: u64,
    pub place: u64,
}
