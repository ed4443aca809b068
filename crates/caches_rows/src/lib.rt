// Where the row of a position stands, in the past cache or in the incoming tensor.
#![tactic(auto)]

ghost use Rattle.std.specs.Prelude.{◌≡◌, true, ◌+◌, ◌*◌, ◌≤◌, ◌<◌, length};
ghost use Rattle.tensor_laws.specs.Layout.{slot};
ghost use Rattle.call.specs.Limits.{total_of, limits_hold};
ghost use Rattle.caches.specs.Fits.{RowFits};
ghost use Rattle.caches.specs.Rows.{stride_from};
ghost use Rattle.caches.specs.Lent.{HeadFits, head_from, head_row, head_run};

use caches::HeadCache;
use call::Call;

// Where the row of batch b, head h, position s starts in a tensor of either rank.
pub fn row_start(
    rank: usize,
    heads: usize,
    len: usize,
    size: usize,
    b: usize,
    h: usize,
    s: usize,
) -> usize
    requires { RowFits heads len size b h s }
    ensures { result ≡ slot rank heads len b h s * size }
{
    if rank == 4 {
        return ((b * heads + h) * len + s) * size;
    }
    ((b * len + s) * heads + h) * size
}

// The part of the two lent tensors that starts with position j's row of key head g in batch b: the past cache's below P, the incoming tensor's from there on.
fn rows_from<'a>(call: Call, cache: HeadCache<'a>, j: usize) -> &'a [f32]
    requires { HeadFits call cache j }
    ensures { result.now ≡ head_from call cache.entry j }
{
    let HeadCache {
        past,
        incoming,
        size,
        b,
        g,
    } = cache;
    let before = call.past;
    if j < before {
        let at = row_start(4, call.kvheads, before, size, b, g, j);
        return &past[at..];
    }
    let at = row_start(call.rank, call.kvheads, call.klen, size, b, g, j - before);
    &incoming[at..]
}

// Position j's row of key head g in batch b: that part's first `size` elements.
pub fn row_of<'a>(call: Call, cache: HeadCache<'a>, j: usize) -> &'a [f32]
    requires { HeadFits call cache j }
    ensures { result.now ≡ head_row call cache.entry j }
{
    let rows = rows_from(call, cache, j);
    &rows[..cache.size]
}

// The distance from one position's row to the next in the part that starts with position j's.
pub fn row_stride(call: Call, size: usize, j: usize) -> usize
    requires call_value { limits_hold call ≡ true }
    requires size_bound { size ≤ 256 }
    ensures { result ≡ stride_from call size j }
{
    if j < call.past {
        return size;
    }
    if call.rank == 4 {
        return size;
    }
    call.kvheads * size
}

// A run of rows: those of `count` positions from `from` on, all in one of the two tensors, from the start of the first to the end of the last; they stand `row_stride` apart.
pub fn run_of<'a>(call: Call, cache: HeadCache<'a>, from: usize, count: usize) -> &'a [f32]
    requires cache_fits { HeadFits call cache from }
    requires count_nonzero { (0 < count) × (from < call.past → from + count ≤ call.past) × (from + count ≤ total_of call) }
    ensures { result.now ≡ head_run call cache.entry from count }
{
    let rows = rows_from(call, cache, from);
    let stride = row_stride(call, cache.size, from);
    let end = (count - 1) * stride + cache.size;
    &rows[..end]
}
