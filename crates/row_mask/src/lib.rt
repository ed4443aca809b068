// The mask on a row of scores.
#![tactic(auto)]

ghost use Rattle.std.specs.Prelude.{◌≡◌, ℕ, ◌+◌, ◌≤◌, ◌<◌, length, slice_index_or};
ghost use Rattle.softmax.specs.Lists.{element_of};
ghost use Rattle.attention.specs.Admission.{repeated};
ghost use Rattle.row_steps.specs.Masks.{masked_under, RowMaskFits};

use call::MaskKind;
use row_steps::RowMask;

// Each score becomes what `apply` makes of it and the one cell.
fn mask_all<C: Copy, F: Fn(f32, C) -> f32>(row: &mut [f32], cell: C, apply: F)
    requires { F.IsAlwaysCallable apply }
    ensures { (j : ℕ) → j < length row.old → F.post apply (element_of row.old j) cell (element_of row.new j) }
{
    for score in row.iter_mut() {
        *score = apply(*score, cell);
    }
}

// Each score becomes what `apply` makes of it and its cell; the cells for the row start at `at`, and a width of 1 is repeated.
fn mask_each<C: Copy, F: Fn(f32, C) -> f32>(
    row: &mut [f32],
    cells: &[C],
    at: usize,
    width: usize,
    apply: F,
)
    requires callable { F.IsAlwaysCallable apply }
    requires cells_len { (at < length cells.now) × ((width ≡ 1 → ⊥) → at + length row.old ≤ length cells.now) }
    ensures { (j : ℕ) (d : C) → j < length row.old → F.post apply (element_of row.old j) (slice_index_or cells.now (at + repeated width j) d) (element_of row.new j) }
{
    if width == 1 {
        mask_all(row, cells[at], apply);
        return;
    }
    for (j, score) in row.iter_mut().enumerate() {
        *score = apply(*score, cells[at + j]);
    }
}

// A row of scores under the mask.
pub fn mask_row(mask: RowMask<'_>, row: &mut [f32])
    requires { RowMaskFits mask (length row.old) }
    ensures { row.new ≡ masked_under mask.entry row.old }
{
    let RowMask {
        kind,
        bytes,
        cells,
        at,
        width,
    } = mask;
    match kind {
        MaskKind::NoMask => {}
        MaskKind::Boolean => mask_each(row, bytes, at, width, |score, byte| {
            if byte == 0 {
                -f32::from_bits(0x7f800000)
            } else {
                score
            }
        }),
        MaskKind::FloatMask => mask_each(row, cells, at, width, |score, cell| score + cell),
    }
}
