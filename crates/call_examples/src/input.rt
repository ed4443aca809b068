// What standard input holds: hexadecimal numbers, each with a space or the end of a line after it, the records and tensors that they make, and the labels.
ghost use Rattle.std.specs.Prelude.{◌≡◌, ◌≤◌, length, vec_len, IfOk};

use call::Call;
use std::alloc::Global;
use std::io::{Read, Write};
use std::{array, io, num};

// The lengths that longer tensors are cut to: those of floats, the boolean mask and the live counts.
const MOST_FLOATS: usize = 4096;

const MOST_BYTES: usize = 64;

const MOST_COUNTS: usize = 8;

// Copies the rest of a line, at most 64 bytes of it.
pub fn copy_label<R: Read, W: Write>(from: &mut R, to: &mut W) -> io::Result<()> {
    for next in from.by_ref().bytes().take(64) {
        let next = next?;
        if next == b'\n' {
            break;
        }
        to.write_all(&[next])?;
    }
    Ok(())
}

// What a digit stands for; letters are small.
fn digit(byte: u8) -> Option<u8> {
    match byte {
        b'0'..=b'9' => Some(byte - b'0'),
        b'a'..=b'f' => Some(byte - b'a' + 10),
        _ => None,
    }
}

// The next number: the digits up to a byte that is none, or to the end; of more than 16 the last 16, and at most 17 are read.
pub fn number<R: Read>(from: &mut R) -> io::Result<u64> {
    let mut all = 0;
    for next in from.by_ref().bytes().take(17) {
        let Some(digit) = digit(next?) else {
            break;
        };
        all = all << 4 | u64::from(digit);
    }
    Ok(all)
}

// The float whose bits are the next number's last 32; one NaN for every pattern of a NaN.
fn float<R: Read>(from: &mut R) -> io::Result<f32> {
    let bits = number(from)? & 0xffff_ffff;
    Ok(num::f32_from_bits_with_nan(bits as u32))
}

// A byte of the boolean mask: the next number's last 8 bits.
fn byte<R: Read>(from: &mut R) -> io::Result<u8> {
    Ok((number(from)? & 0xff) as u8)
}

// The live count whose two's complement the next number is.
fn live_count<R: Read>(from: &mut R) -> io::Result<i64> {
    Ok(number(from)?.cast_signed())
}

// The numbers of a record, as they cross the binary interface.
fn numbers<R: Read>(from: &mut R) -> io::Result<[u64; 18]>
    ensures { IfOk result (λ all. 18 ≡ length all) }
{
    array::try_from_fn(|_| number(from))
}

// A record: its 18 numbers, its scale and its cap.
pub fn record<R: Read>(from: &mut R) -> io::Result<Call> {
    let all = numbers(from)?;
    let scale = float(from)?;
    Ok(interface_record::decode(&all, scale, float(from)?))
}

// The next tensor's length, cut to at most so many elements.
fn kept_length<R: Read>(from: &mut R, most: usize) -> io::Result<usize>
    ensures { IfOk result (λ n. n ≤ most) }
{
    Ok(most.min(number(from)? as usize))
}

// A tensor of floats: its length, how many elements are given, and those. They are repeated up to the length; where none is given, all are 0.
pub fn floats<R: Read>(alloc: Global, from: &mut R) -> io::Result<Vec<f32>>
    ensures { IfOk result (λ tensor. vec_len tensor ≤ MOST_FLOATS) }
{
    let count = kept_length(from, MOST_FLOATS)?;
    let given = number(from)? as usize;
    let mut tensor = Vec::new(alloc);
    tensor.try_resize_with(count.min(given), || float(from))?;
    tensor.resize(count, 0.0)?;
    for n in given..count {
        tensor[n] = tensor[n - given];
    }
    Ok(tensor)
}

// The boolean mask: its length and its bytes.
pub fn bytes<R: Read>(alloc: Global, from: &mut R) -> io::Result<Vec<u8>>
    ensures { IfOk result (λ mask. vec_len mask ≤ MOST_BYTES) }
{
    let count = kept_length(from, MOST_BYTES)?;
    let mut mask = Vec::new(alloc);
    mask.try_resize_with(count, || byte(from))?;
    Ok(mask)
}

// The live counts, likewise.
pub fn counts<R: Read>(alloc: Global, from: &mut R) -> io::Result<Vec<i64>>
    ensures { IfOk result (λ live. vec_len live ≤ MOST_COUNTS) }
{
    let count = kept_length(from, MOST_COUNTS)?;
    let mut live = Vec::new(alloc);
    live.try_resize_with(count, || live_count(from))?;
    Ok(live)
}

#[cfg(test)]
mod tests {
    use super::*;
    use std::test::Fail;

    #[test]
    fn tensors_are_read(rt: HostRuntime) -> Result<(), Fail> {
        let mut from: &[u8] = b"5 2 3f800000 c0000000\n2 0\n2 101 0\n2 7 ffffffffffffffff\n";
        let repeated = floats(rt.alloc(), &mut from)?;
        assert_eq!(rt; repeated.as_slice(), [1.0, -2.0, 1.0, -2.0, 1.0].as_slice());
        let zeros = floats(rt.alloc(), &mut from)?;
        assert_eq!(rt; zeros.as_slice(), [0.0, 0.0].as_slice());
        let mask = bytes(rt.alloc(), &mut from)?;
        assert_eq!(rt; mask.as_slice(), [1, 0].as_slice());
        let live = counts(rt.alloc(), &mut from)?;
        assert_eq!(rt; live.as_slice(), [7, -1].as_slice());
        Ok(())
    }
}
