// The positions of a saved session in lent caches. `load` takes any bytes and any caches.
#![tactic(auto)]

ghost use Rattle.std.specs.Prelude.{◌≡◌, true, false, ℕ, ◌+◌, ◌*◌, ◌%◌, ◌≤◌, ◌<◌, length};
ghost use Rattle.session_file.specs.Sizes.{sizes_hold, rows_of, record_start};
ghost use Rattle.session_file.specs.Reader.{position_fault, cache_at, loaded, load_of};

use call::Refusal;
use session_file::{SessionRead, Sizes};

// One cache of n whole positions without fault: rows of that size, which begin so many bytes into each pair of rows. The file is read in order.
fn load_cache(file: &[u8], sizes: Sizes, n: usize, behind: usize, size: usize, cache: &mut [f32])
    requires sizes_value { sizes_hold sizes ≡ true }
    requires n_bound { n ≤ 2048 }
    requires n_in_bounds { record_start sizes n ≤ length file.now }
    requires by_index { (p : ℕ) → p < n → position_fault sizes file.now p ≡ false }
    requires size_bound { behind + size * 4 ≤ (sizes.size + sizes.vsize) * 4 }
    requires behind_value { behind % 4 ≡ 0 }
    requires cache_len { length cache.old ≡ rows_of sizes * n * size }
    ensures { cache.new ≡ cache_at sizes file.now n behind size }
{
    let rows = sizes.batches * sizes.kvheads;
    let pair = (sizes.size + sizes.vsize) * 4;
    for i in 0..rows * n {
        let p = i / rows;
        let r = i % rows;
        let from = session_sizes::record_start(sizes, p) + 6 + r * pair + behind;
        let to = (r * n + p) * size;
        records_read::read_row(&file[from..from + size * 4], &mut cache[to..to + size]);
    }
}

// The positions of a file in caches of exactly their lengths. The file's own refusal comes first, then that of a cache.
pub fn load(file: &[u8], keys: &mut [f32], values: &mut [f32]) -> Result<SessionRead, Refusal>
    ensures { loaded result keys.new values.new ≡ load_of file.now keys.old values.old }
{
    let read = session_inspect::inspect(file)?;
    let SessionRead { sizes, positions } = read;
    if session_sizes::caches_fit(sizes, positions, keys.len(), values.len()) {
        load_cache(file, sizes, positions, 0, sizes.size, keys);
        load_cache(file, sizes, positions, sizes.size * 4, sizes.vsize, values);
        return Ok(read);
    }
    Err(Refusal::OutputLength)
}
