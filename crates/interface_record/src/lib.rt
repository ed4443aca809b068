// A call record from its numbers. `decode` takes any numbers.
// These are functions and no `From` or `TryFrom`: the types live in a crate of definitions, which has no functions.
#![tactic(auto)]

ghost use Rattle.std.specs.Prelude.{◌≡◌};
ghost use Rattle.interface.specs.Record.{number_at, form_of, mask_kind_of, scale_of, mode_of, rank_of, call_of};

use call::{Call, Form, MaskKind, Scale};

// A number of the record, which is 0 in a record that has not 18 numbers.
#[tactic(auto, unfolding(interface::specs::Record::number_at))]
fn number(numbers: &[u64], at: usize) -> usize
    ensures { result ≡ number_at numbers.now at }
{
    if numbers.len() == 18 && at < 18 {
        numbers[at] as usize
    } else {
        0
    }
}

// The form that a code names. A past is allowed under a code that names none.
#[tactic(auto, unfolding(interface::specs::Record::form_of))]
fn decode_form(code: usize) -> Form
    ensures { result ≡ form_of code }
{
    match code {
        0 => Form::Plain,
        2 => Form::Counted,
        _ => Form::Cached,
    }
}

#[tactic(auto, unfolding(interface::specs::Record::mask_kind_of))]
fn decode_mask(code: usize) -> MaskKind
    ensures { result ≡ mask_kind_of code }
{
    match code {
        1 => MaskKind::Boolean,
        2 => MaskKind::FloatMask,
        _ => MaskKind::NoMask,
    }
}

#[tactic(auto, unfolding(interface::specs::Record::scale_of))]
fn decode_scale(code: usize, scale: f32) -> Scale
    ensures { result ≡ scale_of code scale }
{
    match code {
        0 => Scale::Absent,
        1 => Scale::Given(scale),
        _ => Scale::Given(0.0),
    }
}

#[tactic(auto, unfolding(interface::specs::Record::mode_of))]
fn decode_mode(code: usize) -> Option<usize>
    ensures { result ≡ mode_of code }
{
    if code == 255 { None } else { Some(code) }
}

// The rank, which is 0 where a code names no form or no mask kind, so that the call is refused.
#[tactic(auto, unfolding(interface::specs::Record::codes_named, interface::specs::Record::rank_of))]
fn decode_rank(form: usize, mask: usize, rank: usize) -> usize
    ensures { result ≡ rank_of form mask rank }
{
    if form <= 2 && mask <= 2 { rank } else { 0 }
}

// The call that 18 numbers, a scale and a cap stand for.
#[tactic(auto, unfolding(interface::specs::Record::call_of))]
pub fn decode(numbers: &[u64], scale: f32, softcap: f32) -> Call
    ensures { result ≡ call_of numbers.now scale softcap }
{
    let form = number(numbers, 0);
    let mask = number(numbers, 1);
    let given = number(numbers, 2);
    let mode = number(numbers, 3);
    let rank = number(numbers, 4);
    Call {
        form: decode_form(form),
        mask: decode_mask(mask),
        scale: decode_scale(given, scale),
        softcap,
        mode: decode_mode(mode),
        rank: decode_rank(form, mask, rank),
        causal: number(numbers, 5),
        batches: number(numbers, 6),
        qheads: number(numbers, 7),
        kvheads: number(numbers, 8),
        qlen: number(numbers, 9),
        klen: number(numbers, 10),
        past: number(numbers, 11),
        size: number(numbers, 12),
        vsize: number(numbers, 13),
        maskb: number(numbers, 14),
        maskh: number(numbers, 15),
        maskq: number(numbers, 16),
        maskk: number(numbers, 17),
    }
}
