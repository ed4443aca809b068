// The steps of one row of attention on its lists, and the mask as a row sees it. Definitions and laws; no functions.
#![tactic(auto)]

use call::MaskKind;

// The mask as one row sees it: its cells, bytes or floats by the kind, where those for the row start, and how wide it is; a width of 1 is repeated.
#[derive(Clone, Copy)]
pub struct RowMask<'a> {
    pub kind: MaskKind,
    pub bytes: &'a [u8],
    pub cells: &'a [f32],
    pub at: usize,
    pub width: usize,
}
