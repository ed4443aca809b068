// The first steps of E over a row: the exponents, and the polynomial at the rest of each.
#![tactic(auto)]

ghost use Rattle.std.specs.Prelude.{◌≡◌, ◌≤◌, map};
ghost use Rattle.exponential.specs.ExpNeg.{whole_part_of, rest_of, poly_of};
ghost use Rattle.exponential.specs.Blocks.{exponent_of, exponents_of, Exponents, polys_of};

// d * LOG2E where E(d) has a value above +0, and otherwise 127, at which the steps below give +0.
#[tactic(auto, using(crate::proofs::Constants::constants), unfolding(exponential::specs::Blocks::exponent_of, exponential::specs::ExpNeg::log2e))]
fn exponent_of(d: f32) -> f32
    ensures { result ≡ exponent_of d }
{
    let y = d * f32::from_bits(exponential::LOG2E);
    if 0.0 <= d && y < 120.0 { y } else { 127.0 }
}

#[tactic(auto, unfolding(exponential::specs::Blocks::exponents_of))]
pub fn exponents(row: &mut [f32], largest: f32)
    ensures { row.new ≡ exponents_of largest row.old }
{
    for x in row.iter_mut() {
        *x = exponent_of(largest - *x);
    }
}

// The polynomial at the rest of y, by the whole part n. Modulo 2^15 n is itself; so the compiler knows that it is small, and converts it in fewer instructions.
#[tactic(auto, using(std::proofs::lemmas::Float::not_nan_f32_bits))]
fn poly_at(y: f32, n: u32) -> f32
    requires n_value { n ≡ whole_part_of y }
    requires n_bound { n ≤ 32512 }
    ensures { result ≡ poly_of (rest_of y) }
{
    let r = y - (n % 32768) as f32 / 256.0;
    1.0 - r * (f32::from_bits(exponential::C1) - r * f32::from_bits(exponential::C2))
}

#[tactic(auto, unfolding(exponential::specs::Blocks::polys_of))]
pub fn polys(row: &mut [f32], wholes: &[u32])
    requires wholes_value { wholes.now ≡ map whole_part_of row.old }
    requires exponents { Exponents row.old }
    ensures { row.new ≡ polys_of row.old }
{
    for (i, x) in row.iter_mut().enumerate() {
        *x = poly_at(*x, wholes[i]);
    }
}
