// The output of a row, over the past's positions and then the incoming ones.
#![tactic(auto)]

ghost use Rattle.std.specs.Prelude.{◌≡◌, ◌+◌, ◌≤◌, length, replicate};
ghost use Rattle.exponential.specs.ExpNeg.{plus_zero};
ghost use Rattle.call.specs.Limits.{total_of};
ghost use Rattle.admitted_sum.specs.Masks.{HasCells};
ghost use Rattle.row_runs.specs.Runs.{HeadRunFits, weighed_run, weighed_row};

use caches::HeadCache;
use call::Call;
use row_steps::RowMask;

// The output row with the weighted values of the admitted positions from `from` on added, as many as there are weights, all in one of the two tensors.
fn weigh_run(
    call: Call,
    mask: RowMask<'_>,
    cache: HeadCache<'_>,
    from: usize,
    weights: &[f32],
    out: &mut [f32],
)
    requires out_len { length out.old ≡ cache.size }
    requires run_fits { HeadRunFits call cache from (length weights.now) }
    requires weights_bound { HasCells mask (from + length weights.now) }
    ensures { out.new ≡ weighed_run call mask.entry cache.entry from weights.now out.old }
{
    if weights.len() == 0 {
        return;
    }
    let values = caches_rows::run_of(call, cache, from, weights.len());
    let stride = caches_rows::row_stride(call, cache.size, from);
    admitted_sum::weigh_admitted(mask, from, weights, values, stride, out);
}

// The output row with the weighted values of the admitted positions from 0 on added, as many as there are weights: those of the past cache, then those of the incoming tensor.
fn weigh_positions(
    call: Call,
    mask: RowMask<'_>,
    cache: HeadCache<'_>,
    weights: &[f32],
    out: &mut [f32],
)
    requires out_len { length out.old ≡ cache.size }
    requires run_fits { HeadRunFits call cache call.past 0 }
    requires weights_len_bound { length weights.now ≤ total_of call }
    requires weights_bound { HasCells mask (length weights.now) }
    ensures { out.new ≡ weighed_row call mask.entry cache.entry weights.now out.old }
{
    let cut = call.past.min(weights.len());
    weigh_run(call, mask, cache, 0, &weights[..cut], out);
    weigh_run(call, mask, cache, cut, &weights[cut..], out);
}

// The output row: from +0, the weighted values of the admitted positions from 0 on, as many as there are weights.
pub fn output_row(
    call: Call,
    mask: RowMask<'_>,
    cache: HeadCache<'_>,
    weights: &[f32],
    out: &mut [f32],
)
    requires out_len { length out.old ≡ cache.size }
    requires run_fits { HeadRunFits call cache call.past 0 }
    requires weights_len_bound { length weights.now ≤ total_of call }
    requires weights_bound { HasCells mask (length weights.now) }
    ensures { out.new ≡ weighed_row call mask.entry cache.entry weights.now (replicate cache.entry.size plus_zero) }
{
    row_copies::fill_row(out, 0.0);
    weigh_positions(call, mask, cache, weights, out);
}
