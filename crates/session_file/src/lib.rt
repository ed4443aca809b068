// The types of saved sessions: the sizes that a file begins with, what reading a file gives, and what writing one answers. Every number may be anything that its type holds.
#![tactic(auto)]

#[derive(Clone, Copy)]
pub struct Sizes {
    // B
    pub batches: usize,
    // Hkv
    pub kvheads: usize,
    // D
    pub size: usize,
    // Dv
    pub vsize: usize,
}

// What stands where the record of a position would begin: fewer than six bytes, which are a cut record or none; a whole head of wrong kind or length; a right head whose payload is cut; a whole record.
#[derive(Clone, Copy)]
pub enum Next {
    Ended,
    Wrong,
    Cut,
    Whole,
}

// What reading a file gives, where no refusal applies: its sizes and how many positions are whole in it.
#[derive(Clone, Copy)]
pub struct SessionRead {
    pub sizes: Sizes,
    pub positions: usize,
}

// What writing answers, where no refusal applies: how many positions stand whole in the file, and how many bytes of the buffer it has.
#[derive(Clone, Copy)]
pub struct Saved {
    pub positions: usize,
    pub used: usize,
}
