// Refusal 7: the live counts, searched from their start; and the live count as the rows use it.
#![tactic(auto)]

ghost use Rattle.std.specs.Prelude.{◌≡◌, position, ◌≤◌, ◌<◌, length};
ghost use Rattle.call.specs.Limits.{total_of};
ghost use Rattle.call.specs.Contents.{count_of, count_fault, live_fault, live_of};
ghost use Rattle.call.specs.Lengths.{live_length};

use call::{Call, Form};

// A live count as a number of positions; 0 where it is below 0.
pub fn count_of(count: i64) -> usize
    ensures { result ≡ count_of count }
{
    usize::try_from(count).unwrap_or(0)
}

// A live count below 0 or above T.
fn count_fault(total: usize, count: i64) -> bool
    ensures { result ≡ count_fault total count }
{
    if count < 0 {
        return true;
    }
    total < count_of(count)
}

fn first_fault(total: usize, live: &[i64]) -> Option<usize>
    ensures { result ≡ position (λ n. count_fault total n) live.now }
{
    live.iter().position(|count| count_fault(total, *count))
}

// The first live count at fault.
#[tactic(auto, using(call::proofs::Clear::live_position))]
pub fn live_counts(call: Call, live: &[i64]) -> Option<usize>
    requires { total_of call ≤ 2048 }
    ensures { result ≡ live_fault call live.now }
{
    first_fault(call.past + call.klen, live)
}

// L of batch b: its live count in the counted form, T in any other.
pub fn live_count(call: Call, live: &[i64], b: usize) -> usize
    requires call_bound { total_of call ≤ 2048 }
    requires live_len { length live.now ≡ live_length call }
    requires b_lt_batches { b < call.batches }
    ensures { result ≡ live_of call live.now b }
{
    let form = call.form;
    match form {
        Form::Plain => call.past + call.klen,
        Form::Cached => call.past + call.klen,
        Form::Counted => count_of(live[b]),
    }
}
