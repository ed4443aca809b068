// The step entry: one position of one batch on a cache, which is the call that a decoder makes at every step. It takes the records of the step profile alone.
#![tactic(auto)]

ghost use Rattle.std.specs.Prelude.{◌≡◌};
ghost use Rattle.attention.specs.StepLent.{step_given, step_before, step_after};
ghost use Rattle.attention.specs.Outcomes.{outcome_of};
ghost use Rattle.attention.specs.Entries.{step_of};

use call::{Call, Done, LentInputs, Refusal};

// A step. A record of the profile is answered as the general entry answers it without masks, live counts and scores; any other is refusal 10, and leaves every tensor as it came in.
pub fn step<'a>(
    call: Call,
    query: &[f32],
    key: &'a [f32],
    value: &'a [f32],
    pastkey: &'a [f32],
    pastvalue: &'a [f32],
    output: &mut [f32],
    presentkey: &mut [f32],
    presentvalue: &mut [f32],
    work: &mut [f32],
) -> Result<Done, Refusal>
    ensures { outcome_of result (step_after output presentkey presentvalue work) ≡ step_of call (step_given query key value pastkey pastvalue) (step_before output presentkey presentvalue work) }
{
    if !step_profile::profile_holds(call) {
        return Err(Refusal::Profile);
    }
    let inputs = LentInputs {
        query,
        key,
        value,
        boolmask: &[],
        floatmask: &[],
        pastkey,
        pastvalue,
        live: &[],
    };
    let mut scores: [f32; 0] = [0.0; 0];
    entry::attention(
        call,
        inputs,
        output,
        presentkey,
        presentvalue,
        &mut scores,
        work,
    )
}
