// The scores of a row, over the past's positions and then the incoming ones.
#![tactic(auto)]

ghost use Rattle.std.specs.Prelude.{◌≡◌, true, ◌+◌, ◌≤◌, length};
ghost use Rattle.tensor_laws.specs.Layout.{tabulate};
ghost use Rattle.call.specs.Limits.{total_of};
ghost use Rattle.row_runs.specs.Runs.{ScoresDone, HeadRunFits, head_score};

use caches::HeadCache;
use call::Call;

// The scores of the positions from `from` on, as many as the row has elements, all in one of the two tensors.
fn score_run(call: Call, scale: f32, q: &[f32], cache: HeadCache<'_>, from: usize, row: &mut [f32])
    requires q_len { length q.now ≡ cache.size }
    requires run_fits { HeadRunFits call cache from (length row.old) }
    ensures { row.new ≡ tabulate (length row.old) (λ j. head_score call scale q.now cache.entry (from + j)) }
{
    if row.len() == 0 {
        return;
    }
    let keys = caches_rows::run_of(call, cache, from, row.len());
    let stride = caches_rows::row_stride(call, cache.size, from);
    scores::score_rows(q, keys, stride, scale, row);
}

// The scores of the positions from 0 on, as many as the row has elements: those of the past cache, then those of the incoming tensor.
fn score_positions(call: Call, scale: f32, q: &[f32], cache: HeadCache<'_>, row: &mut [f32])
    requires q_len { length q.now ≡ cache.size }
    requires run_fits { HeadRunFits call cache call.past 0 }
    requires row_len_bound { length row.old ≤ total_of call }
    ensures { row.new ≡ tabulate (length row.old) (head_score call scale q.now cache.entry) }
{
    let cut = call.past.min(row.len());
    score_run(call, scale, q, cache, 0, &mut row[..cut]);
    score_run(call, scale, q, cache, cut, &mut row[cut..]);
}

// Step 1 on a scratch row: the scores of the first m positions, shown where `dots` holds.
pub fn score_row(
    call: Call,
    scale: f32,
    q: &[f32],
    cache: HeadCache<'_>,
    dots: bool,
    m: usize,
    shown: &mut [f32],
    work: &mut [f32],
)
    requires q_len { length q.now ≡ cache.size }
    requires run_fits { HeadRunFits call cache call.past 0 }
    requires m_bound { (m ≤ total_of call) × (m ≤ length work.old) × ((dots ≡ true) → m ≤ length shown.old) }
    ensures { ScoresDone m (head_score call scale q.now cache.entry) dots shown.old work.old shown.new work.new }
{
    score_positions(call, scale, q, cache, &mut work[..m]);
    row_shown::show(dots, &work[..m], 0.0, shown);
}
