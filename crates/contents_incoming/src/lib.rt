// Refusal 9 in K and V. Padded elements are never read.
#![tactic(auto)]

ghost use Rattle.std.specs.Prelude.{◌≡◌, ◌≤◌, true, ℕ, ◌*◌, ◌<◌, length};
ghost use Rattle.call.specs.Contents.{live_fault};
ghost use Rattle.call.specs.Limits.{limits_hold};
ghost use Rattle.call.specs.Lengths.{live_length};
ghost use Rattle.call.specs.Contents.{live_fault, live_of, incoming_fault};
ghost use Rattle.contents.specs.Faults.{prefix_fault};
ghost use Rattle.call.specs.Contents.{live_of};

use call::{Call, Form};

// The first index at fault. The tensor is groups of Sk * unit elements, as many for each batch as `heads` says, and of a group the first L * unit are looked at.
fn first_live_fault(
    call: Call,
    live: &[i64],
    tensor: &[f32],
    heads: usize,
    unit: usize,
) -> Option<usize>
    requires call_value { limits_hold call ≡ true }
    requires live_len { length live.now ≡ live_length call }
    requires by_index { (b : ℕ) → b < call.batches → live_of call live.now b ≤ call.klen }
    requires le_heads { 1 ≤ heads }
    requires le_unit { 1 ≤ unit }
    requires tensor_len { length tensor.now ≡ call.batches * heads * (call.klen * unit) }
    ensures { result ≡ prefix_fault call live.now heads unit tensor.now }
{
    let span = call.klen * unit;
    for group in 0..call.batches * heads {
        let start = group * span;
        let looked = contents_counts::live_count(call, live, group / heads) * unit;
        let end = start + looked;
        if let Some(found) = contents_elements::first_fault_by_blocks(&tensor[start..end]) {
            return Some(start + found);
        }
    }
    None
}

// At rank 4 a group is the rows of a batch and key head, and at rank 3 those of a batch, where each position has a row for every key head.
fn first_counted_fault(call: Call, live: &[i64], size: usize, tensor: &[f32]) -> Option<usize>
    requires call_value { limits_hold call ≡ true }
    requires past_value { call.past ≡ 0 }
    requires live_len { length live.now ≡ live_length call }
    requires by_index { (b : ℕ) → b < call.batches → live_of call live.now b ≤ call.klen }
    requires le_size { (1 ≤ size) × (size ≤ 256) }
    requires tensor_len { length tensor.now ≡ call.batches * call.kvheads * call.klen * size }
    ensures { result ≡ incoming_fault call live.now size tensor.now }
{
    if call.rank == 4 {
        return first_live_fault(call, live, tensor, call.kvheads, size);
    }
    first_live_fault(call, live, tensor, 1, call.kvheads * size)
}

// In a call that is not counted every position is looked at.
pub fn first_incoming_fault(call: Call, live: &[i64], size: usize, tensor: &[f32]) -> Option<usize>
    requires call_value { limits_hold call ≡ true }
    requires live_len { length live.now ≡ live_length call }
    requires live_value { live_fault call live.now ≡ None }
    requires le_size { (1 ≤ size) × (size ≤ 256) }
    requires tensor_len { length tensor.now ≡ call.batches * call.kvheads * call.klen * size }
    ensures { result ≡ incoming_fault call live.now size tensor.now }
{
    let form = call.form;
    match form {
        Form::Plain => contents_elements::first_fault_by_blocks(tensor),
        Form::Cached => contents_elements::first_fault_by_blocks(tensor),
        Form::Counted => first_counted_fault(call, live, size, tensor),
    }
}
