// One row of attention: scores, mask, cap, softmax and weighted sum, read and written where it stands.
#![tactic(auto)]

ghost use Rattle.std.specs.Prelude.{◌≡◌, ℕ, ◌<◌, IsTrue, length, get_or};
ghost use Rattle.std.specs.Float.{nan, binary32};
ghost use Rattle.std.specs.Float.Ieee.{fits};
ghost use Rattle.call.specs.Limits.{total_of};
ghost use Rattle.call.specs.Lengths.{in_scores};
ghost use Rattle.call.specs.Lent.{lent_now, lent_given};
ghost use Rattle.rows.specs.Unit.{Accepting, RowDone};

use caches::HeadCache;
use call::{Call, LentInputs};
use row_steps::RowMask;

// The mask's elements are f32s. The proof knows that of a slice that is a parameter, and not of one that is a field.
fn of_f32s(floatmask: &[f32])
    ensures { (i : ℕ) → IsTrue (fits binary32 (get_or floatmask.now i nan)) }
{}

// Row (b, h, i): its output, what is shown of its scores, its weights in the scratch row, and whether it is fully masked.
pub fn attend_row(
    call: Call,
    scale: f32,
    b: usize,
    h: usize,
    i: usize,
    inputs: LentInputs<'_>,
    out: &mut [f32],
    shown: &mut [f32],
    work: &mut [f32],
) -> bool
    requires accepting { Accepting call (lent_now inputs) scale }
    requires b_lt_batches { (b < call.batches) × (h < call.qheads) × (i < call.qlen) }
    requires out_len { (length out.old ≡ call.vsize) × (length shown.old ≡ in_scores call.mode (total_of call)) × (length work.old ≡ total_of call) }
    ensures { RowDone call (lent_given inputs) b h i out.new shown.new work.new result }
{
    let mode = call.mode;
    of_f32s(inputs.floatmask);
    let g = rows_numbers::key_head(call, h);
    let count = contents_counts::live_count(call, inputs.live, b);
    let n = row_visible::visible(call, count, i);
    let dots = row_shown::shows(mode, 0, 0);
    let m = rows_numbers::scored(dots, count, n);
    let a = caches_rows::row_start(call.rank, call.qheads, call.qlen, call.size, b, h, i);
    let e = a + call.size;
    let keys = HeadCache {
        past: inputs.pastkey,
        incoming: inputs.key,
        size: call.size,
        b,
        g,
    };
    row_scores::score_row(call, scale, &inputs.query[a..e], keys, dots, m, shown, work);
    let mask = RowMask {
        kind: call.mask,
        bytes: inputs.boolmask,
        cells: inputs.floatmask,
        at: row_visible::mask_start(call, b, h, i),
        width: call.maskk,
    };
    let masked = row_softmax::softmax_masked(mask, call.softcap, mode, n, shown, work);
    let values = HeadCache {
        past: inputs.pastvalue,
        incoming: inputs.value,
        size: call.vsize,
        b,
        g,
    };
    row_output::output_row(call, mask, values, &work[..n], out);
    masked
}
