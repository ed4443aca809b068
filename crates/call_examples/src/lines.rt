// What is printed of a call after its label: the answer as five numbers, and the bits of a tensor.
use interface::Numbers;
use std::fmt;
use std::fmt::{Display, Formatter, Write};

// The code of a NaN. It is a NaN's pattern, so no value has it.
const NO_VALUE: u32 = 0xffffffff;

// The bits of a float, and one code for every NaN.
fn code_of(x: f32) -> u32 {
    if x.is_nan() { NO_VALUE } else { x.to_bits() }
}

// The digest with the code of one more element.
fn digest_with(digest: u32, x: &f32) -> u32 {
    ((digest as u64 * 1000003 + code_of(*x) as u64) % 4294967291) as u32
}

// The refusal's number, the tensor and the index at fault, T and the number of fully masked rows (blind rows).
#[derive(Clone, Copy)]
pub struct Report(pub Numbers);

impl Display for Report {
    fn fmt<W: Write>(&self, f: &mut Formatter<W>) -> fmt::Result {
        let Numbers {
            number,
            tensor,
            index,
            total,
            masked,
        } = self.0;
        write!(f, " {number} {tensor} {index} {total} {masked}")
    }
}

// The bits of every element; of more than 64 elements their number and a digest of the bits.
#[derive(Clone, Copy)]
pub struct Bits<'a>(pub &'a [f32]);

impl Display for Bits<'_> {
    fn fmt<W: Write>(&self, f: &mut Formatter<W>) -> fmt::Result {
        if self.0.len() > 64 {
            let digest = self.0.iter().fold(0, digest_with);
            return write!(f, " {} elements {digest:08x}", self.0.len());
        }
        for x in self.0 {
            write!(f, " {:08x}", code_of(*x))?;
        }
        Ok(())
    }
}
