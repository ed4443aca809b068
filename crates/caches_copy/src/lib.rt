// The present cache of one key head: its past rows and then its incoming rows.
#![tactic(auto)]

ghost use Rattle.std.specs.Prelude.{◌≡◌, ◌<◌, length};
ghost use Rattle.std.specs.Float.{nan};
ghost use Rattle.tensor_laws.specs.Layout.{written_of};
ghost use Rattle.call.specs.Limits.{total_of};
ghost use Rattle.attention.specs.Elements.{position_cell};
ghost use Rattle.caches.specs.Fits.{PresentFits};
ghost use Rattle.caches.specs.Rows.{in_head};

use caches::HeadCache;
use call::Call;

// The present cache's rows of key head g in batch b: the past rows and then the incoming rows, each copied whole.
pub fn copy_head(call: Call, cache: HeadCache<'_>, out: &mut [f32])
    requires present_fits { PresentFits call (length cache.past.now) (length cache.incoming.now) (length out.old) cache.size }
    requires b_lt_batches { (cache.b < call.batches) × (cache.g < call.kvheads) }
    ensures { out.new ≡ written_of 4 call.batches call.kvheads (total_of call) cache.entry.size (in_head cache.entry.b cache.entry.g) (position_cell call cache.entry.past.now cache.entry.incoming.now cache.entry.size) nan out.old }
{
    let heads = call.kvheads;
    let total = call.past + call.klen;
    for j in 0..total {
        let a = caches_rows::row_start(4, heads, total, cache.size, cache.b, cache.g, j);
        let e = a + cache.size;
        row_copies::copy_row(caches_rows::row_of(call, cache, j), &mut out[a..e]);
    }
}
