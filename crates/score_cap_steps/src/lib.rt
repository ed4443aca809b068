// The steps of the score cap, each over a block of scores.
#![tactic(auto)]

ghost use Rattle.std.specs.Prelude.{◌≡◌, cond, map, length};
ghost use Rattle.std.specs.Float.{binary32};
ghost use Rattle.std.specs.Float.Ieee.{neg, mul, div};
ghost use Rattle.tensor_laws.specs.Layout.{tabulate};
ghost use Rattle.softmax.specs.Lists.{element_of, hidden, is_hidden};
ghost use Rattle.softmax.specs.Cap.{signed_by, twice_of, ratio_of};

// -z where x is below 0, and else z.
#[tactic(auto, using(crate::proofs::Marks::zero_is))]
fn signed_by(x: f32, z: f32) -> f32
    ensures { result ≡ signed_by x z }
{
    if x < 0.0 { -z } else { z }
}

// x = s / c of each score s.
pub fn quotients(row: &[f32], c: f32, xs: &mut [f32])
    requires { length row.now ≡ length xs.old }
    ensures { xs.new ≡ map (λ s. div binary32 s c) row.now }
{
    for (j, x) in xs.iter_mut().enumerate() {
        *x = row[j] / c;
    }
}

// -(a + a), where a is -x where x is below 0, and else x.
#[tactic(auto, unfolding(softmax::specs::Cap::twice_of))]
fn minus_twice(x: f32) -> f32
    ensures { result ≡ neg (twice_of x) }
{
    let a = signed_by(x, x);
    -(a + a)
}

pub fn minus_twices(xs: &[f32], terms: &mut [f32])
    requires { length xs.now ≡ length terms.old }
    ensures { terms.new ≡ map (λ x. neg (twice_of x)) xs.now }
{
    for (j, term) in terms.iter_mut().enumerate() {
        *term = minus_twice(xs[j]);
    }
}

// c * t by x and g, and a hidden position as it was.
#[tactic(auto, using(crate::proofs::Marks::capping), unfolding(softmax::specs::Cap::ratio_of))]
fn capped(c: f32, s: f32, x: f32, g: f32) -> f32
    ensures { result ≡ cond (is_hidden s) hidden (mul binary32 c (signed_by x (ratio_of g))) }
{
    let t = (1.0 - g) / (1.0 + g);
    let y = c * signed_by(x, t);
    if s == -f32::from_bits(0x7f800000) {
        s
    } else {
        y
    }
}

pub fn cap_elements(row: &mut [f32], c: f32, xs: &[f32], terms: &[f32])
    requires { (length xs.now ≡ length row.old) × (length terms.now ≡ length row.old) }
    ensures { row.new ≡ tabulate (length row.old) (λ j. cond (is_hidden (element_of row.old j)) hidden (mul binary32 c (signed_by (element_of xs.now j) (ratio_of (element_of terms.now j))))) }
{
    for (j, s) in row.iter_mut().enumerate() {
        *s = capped(c, *s, xs[j], terms[j]);
    }
}
