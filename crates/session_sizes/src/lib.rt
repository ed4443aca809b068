// The sizes of a saved session: whether they hold, and the lengths and places that follow from them.
#![tactic(auto)]

ghost use Rattle.std.specs.Prelude.{◌≡◌, true, ◌≤◌};
ghost use Rattle.session_file.specs.Sizes.{sizes_hold, payload_length, record_start};
ghost use Rattle.session_file.specs.Reader.{caches_fit};

use session_file::Sizes;

pub fn sizes_hold(sizes: Sizes) -> bool
    ensures { result ≡ sizes_hold sizes }
{
    if shapes_tests::is_within(1, call::MOST_BATCHES, sizes.batches) {
        if shapes_tests::is_within(1, call::MOST_HEADS, sizes.kvheads) {
            if shapes_tests::is_within(1, call::MOST_SIZE, sizes.size) {
                return shapes_tests::is_within(1, call::MOST_SIZE, sizes.vsize);
            }
        }
    }
    false
}

pub fn payload_length(sizes: Sizes) -> usize
    requires { sizes_hold sizes ≡ true }
    ensures { result ≡ payload_length sizes }
{
    sizes.batches * sizes.kvheads * ((sizes.size + sizes.vsize) * 4)
}

// The byte at which the record of position p begins.
pub fn record_start(sizes: Sizes, p: usize) -> usize
    requires sizes_value { sizes_hold sizes ≡ true }
    requires p_bound { p ≤ 2048 }
    ensures { result ≡ record_start sizes p }
{
    14 + p * (6 + payload_length(sizes))
}

// Whether lengths are those of the caches of n positions.
pub fn caches_fit(sizes: Sizes, n: usize, keys: usize, values: usize) -> bool
    requires sizes_value { sizes_hold sizes ≡ true }
    requires n_bound { n ≤ 2048 }
    ensures { result ≡ caches_fit sizes n keys values }
{
    let rows = sizes.batches * sizes.kvheads * n;
    if keys == rows * sizes.size {
        return values == rows * sizes.vsize;
    }
    false
}
