// The attention operator's entry: it checks a call, and then either answers the first refusal that applies or does the call.
#![tactic(auto)]

ghost use Rattle.std.specs.Prelude.{◌≡◌};
ghost use Rattle.call.specs.Lent.{lent_now, lent_given, outputs_now, outputs_before, outputs_after};
ghost use Rattle.call.specs.Refusals.{verdict_of};
ghost use Rattle.attention.specs.Outcomes.{outcome_of, accepted_of, attention_of};

use call::{Call, Done, LentInputs, Refusal};

// A call to which no refusal applies.
fn attend(
    call: Call,
    inputs: LentInputs<'_>,
    output: &mut [f32],
    presentkey: &mut [f32],
    presentvalue: &mut [f32],
    scores: &mut [f32],
    work: &mut [f32],
) -> Done
    requires { verdict_of call (lent_now inputs) (outputs_now output presentkey presentvalue scores work) ≡ Ok tt }
    ensures { outcome_of (Ok result) (outputs_after output presentkey presentvalue scores work) ≡ accepted_of call (lent_given inputs) }
{
    let scale = rows_numbers::effective_scale(call);
    let masked = heads_all::all_heads(
        call,
        scale,
        inputs,
        output,
        presentkey,
        presentvalue,
        scores,
        work,
    );
    Done {
        total: call.past + call.klen,
        masked,
    }
}

// Attention. Any call ends with an answer: a refused one leaves every tensor as it came in, and an accepted one has written the output, the present caches, the scores and the scratch row (work row) by the formula.
pub fn attention(
    call: Call,
    inputs: LentInputs<'_>,
    output: &mut [f32],
    presentkey: &mut [f32],
    presentvalue: &mut [f32],
    scores: &mut [f32],
    work: &mut [f32],
) -> Result<Done, Refusal>
    ensures { outcome_of result (outputs_after output presentkey presentvalue scores work) ≡ attention_of call (lent_given inputs) (outputs_before output presentkey presentvalue scores work) }
{
    let verdict = refusals::verdict(
        call,
        inputs,
        output.len(),
        presentkey.len(),
        presentvalue.len(),
        scores.len(),
        work.len(),
    );
    // No `?`: an edit gives another refusal in the second arm, and the contract refuses it; over a `?` it would be refused for the names of the proof alone.
    match verdict {
        Ok(()) => Ok(attend(call, inputs, output, presentkey, presentvalue, scores, work)),
        Err(refusal) => Err(refusal),
    }
}
