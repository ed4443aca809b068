// The numbers that the rows of a call need: the scale, the key head of a query head, how many scores are taken and shown, and a truth value as a count.
#![tactic(auto)]

ghost use Rattle.std.specs.Prelude.{◌≡◌, cond, ◌/◌, ◌≤◌};
ghost use Rattle.bool_laws.specs.Counts.{tally};
ghost use Rattle.call.specs.Limits.{total_of};
ghost use Rattle.call.specs.Lengths.{in_scores};
ghost use Rattle.attention.specs.Elements.{key_head_of};
ghost use Rattle.attention.specs.Formula.{effective_scale};

use call::{Call, Scale};

// The scale as given, or the default for the head size.
#[tactic(auto, unfolding(attention::specs::Formula::effective_scale))]
pub fn effective_scale(call: Call) -> f32
    ensures { result ≡ effective_scale call }
{
    match call.scale {
        Scale::Given(x) => x,
        Scale::Absent => tables::default_scale(call.size).unwrap_or(0.0),
    }
}

// Query head h uses key head floor(h / (Hq / Hkv)).
pub fn key_head(call: Call, h: usize) -> usize
    requires { (1 ≤ call.kvheads) × (1 ≤ call.qheads / call.kvheads) }
    ensures { result ≡ key_head_of call h }
{
    let group = call.qheads / call.kvheads;
    h / group
}

// How many scores a row needs: those below the live count where mode 0 shows them, and the visible ones otherwise.
pub fn scored(dots: bool, live: usize, n: usize) -> usize
    ensures { result ≡ cond dots live n }
{
    if dots { live } else { n }
}

pub fn tally_of(t: bool) -> usize
    ensures { result ≡ tally t }
{
    usize::from(t)
}

// How many scores are shown of a row.
pub fn shown_width(call: Call) -> usize
    requires { total_of call ≤ 2048 }
    ensures { result ≡ in_scores call.mode (total_of call) }
{
    match call.mode {
        None => 0,
        Some(_) => call.past + call.klen,
    }
}
