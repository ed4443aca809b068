// The rows that are to be saved, searched for faults.
#![tactic(auto)]

ghost use Rattle.std.specs.Prelude.{◌≡◌, ◌≤◌, ◌<◌, length, get_or};
ghost use Rattle.std.specs.Float.{nan};
ghost use Rattle.bool_laws.specs.Counts.{count_where};
ghost use Rattle.call.specs.Contents.{element_fault};
ghost use Rattle.session_file.specs.Below.{least_from};
ghost use Rattle.session_file.specs.Form.{session_of, cache_row};
ghost use Rattle.session_writer.specs.Fits.{CacheRowFits, CachesFit};
ghost use Rattle.session_file.specs.Writer.{rows_fault};

use session_file::Sizes;

// How many elements of a row are at fault.
fn row_faults(row: &[f32]) -> u32
    requires { length row.now ≤ 256 }
    ensures { result ≡ count_where (length row.now) (λ k. element_fault (get_or row.now k nan)) }
{
    row.iter()
        .map(|x| contents_elements::fault_number(*x))
        .sum()
}

// Row r of position p of a cache of n positions.
pub fn row(cache: &[f32], n: usize, size: usize, p: usize, r: usize) -> &[f32]
    requires { CacheRowFits n size (length cache.now) p r }
    ensures { result.now ≡ cache_row n size cache.now p r }
{
    let from = (r * n + p) * size;
    let to = from + size;
    &cache[from..to]
}

// Whether a row of position p has an element at fault.
fn rows_fault(keys: &[f32], values: &[f32], sizes: Sizes, n: usize, p: usize) -> bool
    requires caches_fit { CachesFit sizes n (length keys.now) (length values.now) }
    requires p_lt_n { p < n }
    ensures { result ≡ rows_fault (session_of sizes n keys.now values.now) p }
{
    for r in 0..sizes.batches * sizes.kvheads {
        if 0 < row_faults(row(keys, n, sizes.size, p, r)) {
            return true;
        }
        if 0 < row_faults(row(values, n, sizes.vsize, p, r)) {
            return true;
        }
    }
    false
}

// The first position with an element at fault.
pub fn first_fault(keys: &[f32], values: &[f32], sizes: Sizes, n: usize) -> Option<usize>
    requires { CachesFit sizes n (length keys.now) (length values.now) }
    ensures { result ≡ least_from (rows_fault (session_of sizes n keys.now values.now)) n 0 }
{
    for p in 0..n {
        if rows_fault(keys, values, sizes, n, p) {
            return Some(p);
        }
    }
    None
}
