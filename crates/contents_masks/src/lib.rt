// Refusal 8: the mask's cells, searched from their start; and refusals 7 and 8 in their order.
#![tactic(auto)]

ghost use Rattle.std.specs.Prelude.{◌≡◌, position, ◌≤◌};
ghost use Rattle.call.specs.Lent.{lent_given};
ghost use Rattle.call.specs.Limits.{total_of};
ghost use Rattle.call.specs.Contents.{byte_fault, cell_fault};
ghost use Rattle.call.specs.Refusals.{cells_verdict};

use call::{Call, LentInputs, Refusal};

fn mask_bytes(mask: &[u8]) -> Option<usize>
    ensures { result ≡ position (λ x. byte_fault x) mask.now }
{
    mask.iter().position(|x| 1 < *x)
}

// NaN and plus infinity are the cells that are not below plus infinity.
fn cell_fault(x: f32) -> bool
    ensures { result ≡ cell_fault x }
{
    !(x < f32::from_bits(0x7f800000))
}

fn mask_cells(mask: &[f32]) -> Option<usize>
    ensures { result ≡ position (λ x. cell_fault x) mask.now }
{
    mask.iter().position(|x| cell_fault(*x))
}

#[tactic(auto, unfolding(call::specs::Refusals::cells_verdict, call::specs::Refusals::first_of), using(call::proofs::FirstLink::then_accepted, call::proofs::Clear::bytes_position, call::proofs::Clear::cells_position))]
pub fn cells_verdict(call: Call, inputs: LentInputs<'_>) -> Result<(), Refusal>
    requires { total_of call ≤ 2048 }
    ensures { result ≡ cells_verdict call (lent_given inputs) }
{
    if let Some(index) = contents_counts::live_counts(call, inputs.live) {
        return Err(Refusal::LiveCount { index });
    }
    if let Some(index) = mask_bytes(inputs.boolmask) {
        return Err(Refusal::MaskCell { index });
    }
    match mask_cells(inputs.floatmask) {
        Some(index) => Err(Refusal::MaskCell { index }),
        None => Ok(()),
    }
}
