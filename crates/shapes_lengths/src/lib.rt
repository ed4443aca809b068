// Refusals 5 and 6: the lengths of the lent tensors.
#![tactic(auto)]

ghost use Rattle.std.specs.Prelude.{◌≡◌, true};
ghost use Rattle.call.specs.Tensors.{Outputs};
ghost use Rattle.call.specs.Lent.{lent_given};
ghost use Rattle.call.specs.Limits.{limits_hold, mask_shape_holds};
ghost use Rattle.call.specs.Lengths.{inputs_fit, outputs_fit};
ghost use Rattle.call.specs.Refusals.{lengths_verdict};
ghost use Rattle.shapes.specs.Lent.{WrittenLengths};

use call::{Call, LentInputs, Refusal};

fn inputs_fit(call: Call, inputs: LentInputs<'_>) -> bool
    requires call_value { limits_hold call ≡ true }
    requires call_value_2 { mask_shape_holds call ≡ true }
    ensures { result ≡ inputs_fit call (lent_given inputs) }
{
    if inputs.query.len()
        != shapes_sizes::product(call.batches, call.qheads, call.qlen, call.size)
    {
        return false;
    }
    if inputs.key.len() != shapes_sizes::product(call.batches, call.kvheads, call.klen, call.size) {
        return false;
    }
    if inputs.value.len()
        != shapes_sizes::product(call.batches, call.kvheads, call.klen, call.vsize)
    {
        return false;
    }
    if inputs.boolmask.len() != shapes_sizes::boolmask_length(call) {
        return false;
    }
    if inputs.floatmask.len() != shapes_sizes::floatmask_length(call) {
        return false;
    }
    if inputs.pastkey.len() != shapes_sizes::cached_length(call, call.past, call.size) {
        return false;
    }
    if inputs.pastvalue.len() != shapes_sizes::cached_length(call, call.past, call.vsize) {
        return false;
    }
    if inputs.live.len() != shapes_sizes::live_length(call) {
        return false;
    }
    true
}

fn outputs_fit(
    call: Call,
    output: usize,
    presentkey: usize,
    presentvalue: usize,
    scores: usize,
    work: usize,
) -> bool
    requires { limits_hold call ≡ true }
    ensures { (y : Outputs) → WrittenLengths y output presentkey presentvalue scores work → result ≡ outputs_fit call y }
{
    if output != shapes_sizes::product(call.batches, call.qheads, call.qlen, call.vsize) {
        return false;
    }
    let total = call.past + call.klen;
    if presentkey != shapes_sizes::cached_length(call, total, call.size) {
        return false;
    }
    if presentvalue != shapes_sizes::cached_length(call, total, call.vsize) {
        return false;
    }
    if scores != shapes_sizes::scores_length(call) {
        return false;
    }
    if work != total {
        return false;
    }
    true
}

pub fn lengths_verdict(
    call: Call,
    inputs: LentInputs<'_>,
    output: usize,
    presentkey: usize,
    presentvalue: usize,
    scores: usize,
    work: usize,
) -> Result<(), Refusal>
    requires call_value { limits_hold call ≡ true }
    requires call_value_2 { mask_shape_holds call ≡ true }
    ensures { (y : Outputs) → WrittenLengths y output presentkey presentvalue scores work → result ≡ lengths_verdict call (lent_given inputs) y }
{
    if !inputs_fit(call, inputs) {
        return Err(Refusal::InputLength);
    }
    if !outputs_fit(call, output, presentkey, presentvalue, scores, work) {
        return Err(Refusal::OutputLength);
    }
    Ok(())
}
