// The whole part of E, n, on one number and over a row.
#![tactic(auto)]

ghost use Rattle.std.specs.Prelude.{◌≡◌, min, T, map, length};
ghost use Rattle.exponential.specs.ExpNeg.{in_range, whole_part_of};
ghost use Rattle.exponential.specs.Blocks.{Exponent, Exponents};

// The largest whole number not above 256 y.
pub fn whole_part(y: f32) -> u32
    requires { T (in_range y) }
    ensures { result ≡ whole_part_of y }
{
    whole_or_limit(y)
}

// n, held to 31, since a shift is by less than 32 places. It is compiled to one packed minimum.
fn at_most_31(n: u32) -> u32
    ensures { result ≡ min n 31 }
{
    n.min(31)
}

// The largest whole number not above 256 y, also at y = 127: the significand with its leading 1, shifted right by 142 places less the exponent's field.
// The low digits of 0x477fffff are all ones, so that the difference borrows nothing from the field; for -0 it wraps, to 398 places. From 24 places on nothing is left, also of a subnormal, which has no leading 1.
#[tactic(auto, using(exponential::proofs::Whole::number))]
fn whole_or_limit(y: f32) -> u32
    requires { Exponent y }
    ensures { result ≡ whole_part_of y }
{
    let bits = f32::to_bits(y);
    let places = std::num::wrapping_sub_u32(0x477fffff, bits) / 8388608;
    (bits % 8388608 + 8388608) >> at_most_31(places)
}

pub fn whole_parts(row: &[f32], wholes: &mut [u32])
    requires row_len { length row.now ≡ length wholes.old }
    requires exponents { Exponents row.now }
    ensures { wholes.new ≡ map whole_part_of row.now }
{
    for (i, n) in wholes.iter_mut().enumerate() {
        *n = whole_or_limit(row[i]);
    }
}
