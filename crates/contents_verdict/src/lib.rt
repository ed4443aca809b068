// Refusal 9: the elements of Q, past key, K, past value and V, searched in that order.
#![tactic(auto)]

ghost use Rattle.std.specs.Prelude.{◌≡◌, ◌≤◌, true, ◌*◌, length};
ghost use Rattle.call.specs.Lent.{lent_given};
ghost use Rattle.call.specs.Contents.{live_fault};
ghost use Rattle.call.specs.Refusals.{where_found};
ghost use Rattle.call.specs.declared.Refusal.TheVariants.{Element};
ghost use Rattle.call.specs.Limits.{limits_hold};
ghost use Rattle.call.specs.Lengths.{key_length, value_length, live_length};
ghost use Rattle.call.specs.Contents.{live_fault, tensor_fault, incoming_fault};
ghost use Rattle.call.specs.Refusals.{where_found, elements_verdict};
ghost use Rattle.call.specs.Lengths.{live_length};

use call::{Call, LentInputs, Refusal};

// The verdict on the tensor with that number, by what a search found.
fn element_verdict(found: Option<usize>, number: usize) -> Result<(), Refusal>
    ensures { result ≡ where_found found (Element number) }
{
    match found {
        Some(index) => Err(Refusal::Element {
            tensor: number,
            index,
        }),
        None => Ok(()),
    }
}

// A tensor of which every element is looked at.
fn whole_tensor(tensor: &[f32], number: usize) -> Result<(), Refusal>
    ensures { result ≡ where_found (tensor_fault tensor.now) (Element number) }
{
    element_verdict(contents_elements::first_fault_by_blocks(tensor), number)
}

// K or V.
fn incoming_tensor(
    call: Call,
    live: &[i64],
    size: usize,
    tensor: &[f32],
    number: usize,
) -> Result<(), Refusal>
    requires call_value { limits_hold call ≡ true }
    requires live_len { length live.now ≡ live_length call }
    requires live_value { live_fault call live.now ≡ None }
    requires le_size { (1 ≤ size) × (size ≤ 256) }
    requires tensor_len { length tensor.now ≡ call.batches * call.kvheads * call.klen * size }
    ensures { result ≡ where_found (incoming_fault call live.now size tensor.now) (Element number) }
{
    element_verdict(
        contents_incoming::first_incoming_fault(call, live, size, tensor),
        number,
    )
}

#[tactic(auto, unfolding(call::specs::Refusals::elements_verdict, call::specs::Refusals::first_of), using(call::proofs::FirstLink::then_accepted))]
pub fn elements_verdict(call: Call, inputs: LentInputs<'_>) -> Result<(), Refusal>
    requires call_value { limits_hold call ≡ true }
    requires key_len { length inputs.key.now ≡ key_length call }
    requires value_len { length inputs.value.now ≡ value_length call }
    requires live_len { length inputs.live.now ≡ live_length call }
    requires live_value { live_fault call inputs.live.now ≡ None }
    ensures { result ≡ elements_verdict call (lent_given inputs) }
{
    whole_tensor(inputs.query, 0)?;
    whole_tensor(inputs.pastkey, 1)?;
    incoming_tensor(call, inputs.live, call.size, inputs.key, 2)?;
    whole_tensor(inputs.pastvalue, 3)?;
    incoming_tensor(call, inputs.live, call.vsize, inputs.value, 4)
}
