// The house exponential E(d) on one number.
#![tactic(auto)]

ghost use Rattle.std.specs.Prelude.{◌≡◌, T};
ghost use Rattle.tables.specs.Power.{power_bits};
ghost use Rattle.exponential.specs.ExpNeg.{in_range, below_limit_of, exp_neg_of};

// E by y = d * LOG2E, for y from 0 to below 120.
fn below_limit(powers: &[u32; 256], y: f32) -> f32
    requires powers_value { powers.now ≡ power_bits }
    requires t { T (in_range y) }
    ensures { result ≡ below_limit_of y }
{
    let n = exponential_whole::whole_part(y);
    let f = (n % 256) as usize;
    let rest = y - n as f32 / 256.0;
    let p = 1.0 - rest * (f32::from_bits(exponential::C1) - rest * f32::from_bits(exponential::C2));
    let halfpower = f32::from_bits((127 - n / 256) * 8388608);
    f32::from_bits(powers[f]) * p * halfpower
}

// E(d) by a table that the caller has bound.
fn exp_neg_by(powers: &[u32; 256], d: f32) -> Option<f32>
    requires { powers.now ≡ power_bits }
    ensures { result ≡ exp_neg_of d }
{
    if d.is_nan() || d < 0.0 {
        return None;
    }
    let y = d * f32::from_bits(exponential::LOG2E);
    if y >= 120.0 {
        return Some(0.0);
    }
    Some(below_limit(powers, y))
}

pub fn exp_neg(d: f32) -> Option<f32>
    ensures { result ≡ exp_neg_of d }
{
    let powers = tables::table::POWERS;
    exp_neg_by(&powers, d)
}
