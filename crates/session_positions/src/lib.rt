// The records of the positions that are to be saved.
#![tactic(auto)]

ghost use Rattle.std.specs.Prelude.{◌≡◌, false, ◌++◌, ℕ, ◌+◌, ◌*◌, ◌<◌, length};
ghost use Rattle.records.specs.Numbers.{row_bytes};
ghost use Rattle.session_file.specs.Below.{joined};
ghost use Rattle.session_file.specs.Sizes.{record_length};
ghost use Rattle.session_file.specs.Form.{session_of, position_bytes};
ghost use Rattle.session_writer.specs.Fits.{CachesFit};
ghost use Rattle.session_file.specs.Writer.{row_fault, rows_fault};

use session_file::Sizes;

// A key row and the value row behind it.
fn write_pair(key: &[f32], value: &[f32], bytes: &mut [u8])
    requires bytes_len { length bytes.old ≡ (length key.now + length value.now) * 4 }
    requires key_value { (row_fault key.now ≡ false) × (row_fault value.now ≡ false) }
    ensures { bytes.new ≡ row_bytes key.now ++ row_bytes value.now }
{
    let cut = key.len() * 4;
    records_write::write_row(key, &mut bytes[..cut]);
    records_write::write_row(value, &mut bytes[cut..]);
}

// The record of position p.
fn write_position(keys: &[f32], values: &[f32], sizes: Sizes, n: usize, p: usize, bytes: &mut [u8])
    requires caches_fit { CachesFit sizes n (length keys.now) (length values.now) }
    requires p_lt_n { p < n }
    requires p_value { rows_fault (session_of sizes n keys.now values.now) p ≡ false }
    requires bytes_len { length bytes.old ≡ record_length sizes }
    ensures { bytes.new ≡ position_bytes (session_of sizes n keys.now values.now) p }
{
    let rows = sizes.batches * sizes.kvheads;
    let pair = (sizes.size + sizes.vsize) * 4;
    records_write::put_head(bytes, 0, (rows * pair) as u32, 2);
    for r in 0..rows {
        let from = 6 + r * pair;
        let to = from + pair;
        write_pair(
            session_rows::row(keys, n, sizes.size, p, r),
            session_rows::row(values, n, sizes.vsize, p, r),
            &mut bytes[from..to],
        );
    }
}

// The records of all n positions, none of which is at fault.
pub fn write_positions(keys: &[f32], values: &[f32], sizes: Sizes, n: usize, bytes: &mut [u8])
    requires caches_fit { CachesFit sizes n (length keys.now) (length values.now) }
    requires by_index { (p : ℕ) → p < n → rows_fault (session_of sizes n keys.now values.now) p ≡ false }
    requires bytes_len { length bytes.old ≡ n * record_length sizes }
    ensures { bytes.new ≡ joined (position_bytes (session_of sizes n keys.now values.now)) n }
{
    let long = 6 + session_sizes::payload_length(sizes);
    for p in 0..n {
        let from = p * long;
        let to = from + long;
        write_position(keys, values, sizes, n, p, &mut bytes[from..to]);
    }
}
