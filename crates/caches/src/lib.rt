// Where the row of a position stands, the present caches, and the rows of one key head as they are lent. Definitions and laws; no functions.
#![tactic(auto)]

// The rows of key head `g` in batch `b`, of keys or of values: in the past cache and in the incoming tensor, each row `size` elements long.
#[derive(Clone, Copy)]
pub struct HeadCache<'a> {
    pub past: &'a [f32],
    pub incoming: &'a [f32],
    pub size: usize,
    pub b: usize,
    pub g: usize,
}
