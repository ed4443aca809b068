// The check that decides the nine refusals, one link after the other in their order. It reads what the caller lends and writes nothing.
#![tactic(auto)]

ghost use Rattle.std.specs.Prelude.{◌≡◌};
ghost use Rattle.call.specs.Tensors.{Outputs};
ghost use Rattle.call.specs.Lent.{lent_given};
ghost use Rattle.call.specs.Refusals.{verdict_of};
ghost use Rattle.shapes.specs.Lent.{WrittenLengths};

use call::{Call, LentInputs, Refusal};

// The first of the nine refusals that applies to a call. Of the tensors lent for writing it takes the lengths alone, so a refused call cannot have written.
pub fn verdict(
    call: Call,
    inputs: LentInputs<'_>,
    output: usize,
    presentkey: usize,
    presentvalue: usize,
    scores: usize,
    work: usize,
) -> Result<(), Refusal>
    ensures { (y : Outputs) → WrittenLengths y output presentkey presentvalue scores work → result ≡ verdict_of call (lent_given inputs) y }
{
    shapes_record::record_verdict(call)?;
    shapes_lengths::lengths_verdict(call, inputs, output, presentkey, presentvalue, scores, work)?;
    contents_masks::cells_verdict(call, inputs)?;
    contents_verdict::elements_verdict(call, inputs)
}
