// A run of query heads.
#![tactic(auto)]

ghost use Rattle.std.specs.Prelude.{◌≡◌, ◌*◌, ◌≤◌, length};
ghost use Rattle.call.specs.Limits.{total_of};
ghost use Rattle.call.specs.Lengths.{output_length, scores_length};
ghost use Rattle.call.specs.Lent.{lent_now, lent_given};
ghost use Rattle.rows.specs.Unit.{Accepting};
ghost use Rattle.heads.specs.Heads.{HeadsCarried};

use call::{Call, LentInputs};

// The query heads from number `from` to before number `to`, where the heads of all batches are numbered one after the other. Returns how many of their rows are fully masked.
pub fn heads_between(
    call: Call,
    scale: f32,
    from: usize,
    to: usize,
    inputs: LentInputs<'_>,
    output: &mut [f32],
    scores: &mut [f32],
    work: &mut [f32],
) -> usize
    requires accepting { Accepting call (lent_now inputs) scale }
    requires from_le_to { (from ≤ to) × (to ≤ call.batches * call.qheads) }
    requires output_len { (length output.old ≡ output_length call) × (length scores.old ≡ scores_length call) × (length work.old ≡ total_of call) }
    ensures { HeadsCarried call (lent_given inputs) from to output.old scores.old work.old output.new scores.new work.new result }
{
    let heads = call.qheads;
    let rows = call.qlen;
    let mut masked = 0;
    for n in from..to {
        masked += rows_head::head_rows(
            call,
            scale,
            n / heads,
            n % heads,
            0,
            rows,
            inputs,
            output,
            scores,
            work,
        );
    }
    masked
}
