// Every query head of every batch, and the present caches.
#![tactic(auto)]

ghost use Rattle.std.specs.Prelude.{◌≡◌, length};
ghost use Rattle.call.specs.Limits.{total_of};
ghost use Rattle.call.specs.Lengths.{output_length, present_key_length, present_value_length, scores_length};
ghost use Rattle.call.specs.Lent.{lent_now, lent_given};
ghost use Rattle.rows.specs.Unit.{Accepting};
ghost use Rattle.heads.specs.Heads.{HeadsDone};

use call::{Call, Form, LentInputs};

// Every head of every batch; the present caches too, where there are some. Returns the number of fully masked rows.
pub fn all_heads(
    call: Call,
    scale: f32,
    inputs: LentInputs<'_>,
    output: &mut [f32],
    presentkey: &mut [f32],
    presentvalue: &mut [f32],
    scores: &mut [f32],
    work: &mut [f32],
) -> usize
    requires accepting { Accepting call (lent_now inputs) scale }
    requires output_len { (length output.old ≡ output_length call) × (length scores.old ≡ scores_length call) × (length work.old ≡ total_of call) }
    requires presentkey_len { (length presentkey.old ≡ present_key_length call) × (length presentvalue.old ≡ present_value_length call) }
    ensures { HeadsDone call (lent_given inputs) output.new presentkey.new presentvalue.new scores.new work.new result }
{
    let all = call.batches * call.qheads;
    let form = call.form;
    match form {
        Form::Plain => heads_run::heads_between(call, scale, 0, all, inputs, output, scores, work),
        Form::Cached => heads_cached::cached_heads(
            call,
            scale,
            inputs,
            output,
            presentkey,
            presentvalue,
            scores,
            work,
        ),
        Form::Counted => heads_run::heads_between(
            call, scale, 0, all, inputs, output, scores, work,
        ),
    }
}
