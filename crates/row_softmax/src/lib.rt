// Steps 2 to 4 of one row of attention on its lists: the mask and the cap, softmax, and the scores shown.
#![tactic(auto)]

ghost use Rattle.std.specs.Prelude.{◌≡◌, ◌≤◌, T, length, take};
ghost use Rattle.softmax.specs.Lists.{is_score_row};
ghost use Rattle.softmax.specs.Cap.{capped_row_where};
ghost use Rattle.call.specs.Lengths.{in_scores};
ghost use Rattle.row_steps.specs.Steps.{SoftmaxDone};
ghost use Rattle.row_steps.specs.Masks.{masked_under, RowMaskFits};

use row_shown::{show, shows};
use row_steps::RowMask;

// Steps 2 to 4 on a scratch row whose first n elements are scores: the mask and the cap on them, softmax, and +0 behind. The scores under the mask are shown in mode 1, those under the cap in mode 2, and the weights in mode 3. Tells whether the row is fully masked.
pub fn softmax_masked(
    mask: RowMask<'_>,
    softcap: f32,
    mode: Option<usize>,
    n: usize,
    shown: &mut [f32],
    work: &mut [f32],
) -> bool
    requires mask_row_fits { RowMaskFits mask n }
    requires t { T (is_score_row (capped_row_where softcap (masked_under mask (take n work.old)))) }
    requires n_in_bounds { (n ≤ length work.old) × (length work.old ≤ 2048) }
    requires shown_len { length shown.old ≡ in_scores mode (length work.old) }
    ensures { SoftmaxDone mode softcap (masked_under mask.entry (take n work.old)) shown.old (length work.old) shown.new work.new result }
{
    row_capped::mask_and_cap(mask, softcap, mode, shown, &mut work[..n]);
    let masked = softmax_row::softmax_row(&mut work[..n]);
    row_copies::fill_row(&mut work[n..], 0.0);
    show(shows(mode, 3, 3), work, 0.0, shown);
    masked
}
