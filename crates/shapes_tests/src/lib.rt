// Tests of single values of a record.
#![tactic(auto)]

ghost use Rattle.std.specs.Prelude.{◌≡◌, ◌||◌, eqb};
ghost use Rattle.call.specs.Limits.{within, past_allowed};

use call::Form;

// low ≤ x ≤ high
pub fn is_within(low: usize, high: usize, x: usize) -> bool
    ensures { result ≡ within low high x }
{
    (low..=high).contains(&x)
}

// x is one of two numbers.
pub fn is_either(a: usize, b: usize, x: usize) -> bool
    ensures { result ≡ (eqb x a || eqb x b) }
{
    x == a || x == b
}

// P is 0 outside the cached form.
pub fn past_allowed(form: Form, past: usize) -> bool
    ensures { result ≡ past_allowed form past }
{
    match form {
        Form::Cached => true,
        Form::Plain | Form::Counted => past == 0,
    }
}
