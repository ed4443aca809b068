// The last steps of E over a row: the product by the table, and the product by 2^-k.
#![tactic(auto)]

ghost use Rattle.std.specs.Prelude.{◌≡◌, ℕ, ◌-◌, ◌*◌, ◌/◌, ◌%◌, ◌≤◌, ◌<◌, length, get_or};
ghost use mathlib.Core.List.{zip_with};
ghost use Rattle.std.specs.Float.{binary32};
ghost use Rattle.std.specs.Float.Ieee.{mul, of_bits};
ghost use Rattle.tables.specs.Power.{power_bits, power_of};
ghost use Rattle.exponential.specs.Blocks.{times_power};

// P[f] * p, with f = n mod 256.
#[tactic(auto, unfolding(tables::specs::Power::power_of))]
fn times_entry(powers: &[u32; 256], n: u32, p: f32) -> f32
    requires { powers.now ≡ power_bits }
    ensures { result ≡ mul binary32 (power_of (n % 256)) p }
{
    let at = (n % 256) as usize;
    f32::from_bits(powers[at]) * p
}

// p * 2^-k, with k = n / 256; for n = 127 * 256 the factor is +0.
#[tactic(auto, using(std::proofs::lemmas::Float::not_nan_f32_bits))]
fn halved(n: u32, p: f32) -> f32
    requires { n ≤ 32512 }
    ensures { result ≡ mul binary32 p (of_bits binary32 ((127 - n / 256) * 8388608)) }
{
    p * f32::from_bits((127 - n / 256) * 8388608)
}

#[tactic(auto, using(crate::proofs::Products::products_by_index))]
fn halve(row: &mut [f32], wholes: &[u32])
    requires wholes_len { length wholes.now ≡ length row.old }
    requires by_index { (k : ℕ) → k < length wholes.now → get_or wholes.now k 0 ≤ 32512 }
    ensures { row.new ≡ zip_with (λ n p. mul binary32 p (of_bits binary32 ((127 - n / 256) * 8388608))) wholes.now row.old }
{
    for (i, p) in row.iter_mut().enumerate() {
        *p = halved(wholes[i], *p);
    }
}

// (P[f] * p) * 2^-k at each element. The products by the table go one by one, and those by 2^-k, after all of them, four at a time.
pub fn times_powers(powers: &[u32; 256], row: &mut [f32], wholes: &[u32])
    requires powers_value { powers.now ≡ power_bits }
    requires wholes_len { length wholes.now ≡ length row.old }
    requires by_index { (k : ℕ) → k < length wholes.now → get_or wholes.now k 0 ≤ 32512 }
    ensures { row.new ≡ zip_with times_power wholes.now row.old }
{
    for (i, p) in row.iter_mut().enumerate() {
        *p = times_entry(powers, wholes[i], *p);
    }
    halve(row, wholes);
}
