// Every query head of a cached call, and the present caches.
#![tactic(auto)]

ghost use Rattle.std.specs.Prelude.{◌≡◌, ◌*◌, length};
ghost use Rattle.call.specs.Limits.{total_of};
ghost use Rattle.call.specs.Lengths.{output_length, scores_length};
ghost use Rattle.call.specs.Lent.{lent_now, lent_given};
ghost use Rattle.rows.specs.Unit.{Accepting};
ghost use Rattle.heads.specs.Heads.{HeadsDone};

use caches::HeadCache;
use call::{Call, Form, LentInputs};

// A cached call. The present caches' rows of a key head are copied just before the query heads that use it, while they are near.
pub fn cached_heads(
    call: Call,
    scale: f32,
    inputs: LentInputs<'_>,
    output: &mut [f32],
    presentkey: &mut [f32],
    presentvalue: &mut [f32],
    scores: &mut [f32],
    work: &mut [f32],
) -> usize
    requires accepting { Accepting call (lent_now inputs) scale }
    requires form_value { call.form ≡ Form.Cached }
    requires output_len { (length output.old ≡ output_length call) × (length scores.old ≡ scores_length call) × (length work.old ≡ total_of call) }
    requires presentkey_len { (length presentkey.old ≡ call.batches * call.kvheads * total_of call * call.size) × (length presentvalue.old ≡ call.batches * call.kvheads * total_of call * call.vsize) }
    ensures { HeadsDone call (lent_given inputs) output.new presentkey.new presentvalue.new scores.new work.new result }
{
    let heads = call.kvheads;
    let group = call.qheads / heads;
    let all = call.batches * heads;
    let mut masked = 0;
    for n in 0..all {
        let b = n / heads;
        let g = n % heads;
        let keys = HeadCache {
            past: inputs.pastkey,
            incoming: inputs.key,
            size: call.size,
            b,
            g,
        };
        let values = HeadCache {
            past: inputs.pastvalue,
            incoming: inputs.value,
            size: call.vsize,
            b,
            g,
        };
        caches_copy::copy_head(call, keys, presentkey);
        caches_copy::copy_head(call, values, presentvalue);
        let first = n * group;
        masked += heads_run::heads_between(
            call,
            scale,
            first,
            first + group,
            inputs,
            output,
            scores,
            work,
        );
    }
    masked
}
