// The rows of one query head, each written where it stands; and the scale, once a call.
#![tactic(auto)]

ghost use Rattle.std.specs.Prelude.{◌≡◌, ◌+◌, ◌≤◌, ◌<◌, length};
ghost use Rattle.call.specs.Limits.{total_of};
ghost use Rattle.call.specs.Lengths.{output_length, scores_length};
ghost use Rattle.call.specs.Lent.{lent_now, lent_given};
ghost use Rattle.rows.specs.Unit.{Accepting, HeadDone};

use call::{Call, LentInputs};

// The rows of query head h in batch b from `first` for `count`, written where they stand; the scratch row holds the weights of the last of them. Returns how many of them are fully masked.
pub fn head_rows(
    call: Call,
    scale: f32,
    b: usize,
    h: usize,
    first: usize,
    count: usize,
    inputs: LentInputs<'_>,
    output: &mut [f32],
    scores: &mut [f32],
    work: &mut [f32],
) -> usize
    requires accepting { Accepting call (lent_now inputs) scale }
    requires b_lt_batches { (b < call.batches) × (h < call.qheads) × (1 ≤ count) × (first + count ≤ call.qlen) }
    requires output_len { (length output.old ≡ output_length call) × (length scores.old ≡ scores_length call) × (length work.old ≡ total_of call) }
    ensures { HeadDone call (lent_given inputs) b h first count output.old scores.old output.new scores.new work.new result }
{
    let width = rows_numbers::shown_width(call);
    let mut masked = 0;
    for i in first..first + count {
        let ya = caches_rows::row_start(call.rank, call.qheads, call.qlen, call.vsize, b, h, i);
        let ye = ya + call.vsize;
        let sa = caches_rows::row_start(4, call.qheads, call.qlen, width, b, h, i);
        let se = sa + width;
        let t = rows_attend::attend_row(
            call,
            scale,
            b,
            h,
            i,
            inputs,
            &mut output[ya..ye],
            &mut scores[sa..se],
            work,
        );
        masked += rows_numbers::tally_of(t);
    }
    masked
}
