// Records of saved files, written: heads, little-endian numbers, rows of f32 bits.
#![tactic(auto)]

ghost use Rattle.std.specs.Prelude.{◌≡◌, not, ℕ, ◌+◌, ◌*◌, ◌≤◌, ◌<◌, T, length, get_or};
ghost use Rattle.std.specs.Float.{nan};
ghost use Rattle.std.specs.Float.Ieee.{is_nan};
ghost use Rattle.records.specs.Numbers.{u16_bytes, u32_bytes, row_bytes};
ghost use Rattle.records.specs.Records.{head_bytes, written_at};

pub fn put_u16(bytes: &mut [u8], at: usize, x: u16)
    requires { at + 2 ≤ length bytes.old }
    ensures { bytes.new ≡ written_at bytes.old at (u16_bytes x) }
{
    bytes[at..at + 2].copy_from_slice(&x.to_le_bytes());
}

pub fn put_u32(bytes: &mut [u8], at: usize, x: u32)
    requires { at + 4 ≤ length bytes.old }
    ensures { bytes.new ≡ written_at bytes.old at (u32_bytes x) }
{
    bytes[at..at + 4].copy_from_slice(&x.to_le_bytes());
}

pub fn put_head(bytes: &mut [u8], at: usize, long: u32, kind: u16)
    requires { at + 6 ≤ length bytes.old }
    ensures { bytes.new ≡ written_at bytes.old at (head_bytes long kind) }
{
    put_u32(bytes, at, long);
    put_u16(bytes, at + 4, kind);
}

// The bytes of a row, none of whose elements is a NaN.
pub fn write_row(row: &[f32], bytes: &mut [u8])
    requires bytes_len { length bytes.old ≡ length row.now * 4 }
    requires by_index { (k : ℕ) → k < length row.now → T (not (is_nan (get_or row.now k nan))) }
    ensures { bytes.new ≡ row_bytes row.now }
{
    for (i, x) in row.iter().enumerate() {
        put_u32(bytes, i * 4, x.to_bits());
    }
}
