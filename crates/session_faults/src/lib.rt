// The elements of a whole record, tested as bit patterns.
#![tactic(auto)]

ghost use Rattle.std.specs.Prelude.{◌≡◌, true, ◌+◌, ◌/◌, ◌≤◌, length};
ghost use Rattle.std.specs.Float.{binary32};
ghost use Rattle.std.specs.Float.Ieee.{of_bits};
ghost use Rattle.bool_laws.specs.Counts.{tally, count_where};
ghost use Rattle.call.specs.Contents.{element_fault};
ghost use Rattle.session_file.specs.Sizes.{sizes_hold, record_length, record_start};
ghost use Rattle.session_file.specs.Reader.{payload_fault, position_fault};

use session_file::Sizes;

// 1 where a pattern stands for no number of magnitude at most 65,536, and 0 otherwise.
fn pattern_fault(bits: u32) -> u32
    ensures { result ≡ tally (element_fault (of_bits binary32 bits)) }
{
    if bits % 2147483648 <= 1199570944 {
        0
    } else {
        1
    }
}

// How many elements of a payload are at fault.
fn payload_faults(payload: &[u8]) -> u32
    requires { length payload.now ≤ 524288 }
    ensures { result ≡ count_where (length payload.now / 4) (payload_fault payload.now 0) }
{
    (0..payload.len() / 4)
        .map(|i| pattern_fault(records_read::u32_at(payload, i * 4)))
        .sum()
}

// Whether an element of the whole record of position p is at fault.
pub fn position_fault(file: &[u8], sizes: Sizes, p: usize) -> bool
    requires sizes_value { sizes_hold sizes ≡ true }
    requires p_bound { p ≤ 2048 }
    requires sizes_in_bounds { record_start sizes p + record_length sizes ≤ length file.now }
    ensures { result ≡ position_fault sizes file.now p }
{
    let from = session_sizes::record_start(sizes, p) + 6;
    let to = from + session_sizes::payload_length(sizes);
    0 < payload_faults(&file[from..to])
}
