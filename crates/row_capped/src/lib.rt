// The mask and the cap on a row of scores, and what is shown of it in modes 1 and 2.
#![tactic(auto)]

ghost use Rattle.std.specs.Prelude.{◌≡◌, ℕ, ◌≤◌, true, length};
ghost use Rattle.row_steps.specs.Steps.{shows_of, CapDone};
ghost use Rattle.row_steps.specs.Masks.{masked_under, RowMaskFits};

use row_shown::{show, shows};
use row_steps::RowMask;

// Step 2 on a row of scores, and then the cap. The scores under the mask are shown in mode 1, and those under the cap in mode 2.
pub fn mask_and_cap(
    mask: RowMask<'_>,
    softcap: f32,
    mode: Option<usize>,
    shown: &mut [f32],
    row: &mut [f32],
)
    requires mask_row_fits { RowMaskFits mask (length row.old) }
    requires by_index { (low high : ℕ) → shows_of mode low high ≡ true → length row.old ≤ length shown.old }
    ensures { CapDone mode softcap (masked_under mask.entry row.old) shown.old shown.new row.new }
{
    row_mask::mask_row(mask, row);
    show(shows(mode, 1, 1), row, -f32::from_bits(0x7f800000), shown);
    score_cap::cap_row(row, softcap);
    show(shows(mode, 2, 2), row, -f32::from_bits(0x7f800000), shown);
}
