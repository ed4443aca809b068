// Whether a record is of the step profile.
#![tactic(auto)]

ghost use Rattle.std.specs.Prelude.{◌≡◌};
ghost use Rattle.call.specs.Profile.{profile_holds};

use call::{Call, Form, MaskKind};

// Whether the record is of the step profile.
#[tactic(auto, unfolding(call::specs::Profile::profile_holds))]
pub fn profile_holds(call: Call) -> bool
    ensures { result ≡ profile_holds call }
{
    matches!(call.form, Form::Cached)
        && matches!(call.mask, MaskKind::NoMask)
        && call.mode.is_none()
        && call.rank == 4
        && call.causal == 1
        && call.batches == 1
        && call.qlen == 1
        && call.klen == 1
}
