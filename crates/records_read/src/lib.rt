// Records of saved files, read: heads, little-endian numbers, rows of f32 bits.
#![tactic(auto)]

ghost use Rattle.std.specs.Prelude.{◌≡◌, not, ℕ, ◌+◌, ◌*◌, ◌≤◌, ◌<◌, T, length};
ghost use Rattle.std.specs.Float.{binary32};
ghost use Rattle.std.specs.Float.Ieee.{nan_bits};
ghost use Rattle.records.specs.Numbers.{u16_at, u32_at, row_at};
ghost use Rattle.records.specs.Records.{head_is};

pub fn u16_at(bytes: &[u8], at: usize) -> u16
    requires { at + 2 ≤ length bytes.now }
    ensures { result ≡ u16_at bytes.now at }
{
    u16::from_le_bytes([bytes[at], bytes[at + 1]])
}

pub fn u32_at(bytes: &[u8], at: usize) -> u32
    requires { at + 4 ≤ length bytes.now }
    ensures { result ≡ u32_at bytes.now at }
{
    u32::from_le_bytes([bytes[at], bytes[at + 1], bytes[at + 2], bytes[at + 3]])
}

// Whether the six bytes from `at` on are the head of a record of that length and kind.
pub fn head_is(bytes: &[u8], at: usize, long: u32, kind: u16) -> bool
    requires { at + 6 ≤ length bytes.now }
    ensures { result ≡ head_is bytes.now at long kind }
{
    u32_at(bytes, at) == long && u16_at(bytes, at + 4) == kind
}

// A row from its bytes, none of whose patterns is a NaN's.
pub fn read_row(bytes: &[u8], row: &mut [f32])
    requires bytes_len { length bytes.now ≡ length row.old * 4 }
    requires by_index { (k : ℕ) → k < length row.old → T (not (nan_bits binary32 (u32_at bytes.now (k * 4)))) }
    ensures { row.new ≡ row_at bytes.now 0 (length row.old) }
{
    for (i, x) in row.iter_mut().enumerate() {
        *x = f32::from_bits(u32_at(bytes, i * 4));
    }
}
