// Refusals 1 to 4: the record.
#![tactic(auto)]

ghost use Rattle.std.specs.Prelude.{◌≡◌, ◌≤◌};
ghost use Rattle.call.specs.Limits.{total_of, limits_hold, groups_hold, settings_hold, dimensions_hold, mask_shape_holds};
ghost use Rattle.call.specs.Refusals.{record_verdict};

use call::{Call, MaskKind, Refusal};

// T is at most 2,048 where P is at most 2,048 - Sk.
#[tactic(auto, unfolding(call::specs::Limits::limits_hold))]
fn limits_hold(call: Call) -> bool
    ensures { result ≡ limits_hold call }
{
    shapes_tests::is_within(1, call::MOST_BATCHES, call.batches)
        && shapes_tests::is_within(1, call::MOST_HEADS, call.qheads)
        && shapes_tests::is_within(1, call::MOST_HEADS, call.kvheads)
        && shapes_tests::is_within(1, call::MOST_LENGTH, call.qlen)
        && shapes_tests::is_within(1, call::MOST_LENGTH, call.klen)
        && call.past <= call::MOST_LENGTH - call.klen
        && shapes_tests::is_within(1, call::MOST_SIZE, call.size)
        && shapes_tests::is_within(1, call::MOST_SIZE, call.vsize)
        && shapes_tests::past_allowed(call.form, call.past)
}

#[tactic(auto, unfolding(call::specs::Limits::groups_hold))]
fn groups_hold(call: Call) -> bool
    requires { 1 ≤ call.kvheads }
    ensures { result ≡ groups_hold call }
{
    shapes_settings::groups_allowed(call.qheads, call.kvheads)
}

#[tactic(auto, unfolding(call::specs::Limits::settings_hold))]
fn settings_hold(call: Call) -> bool
    ensures { result ≡ settings_hold call }
{
    shapes_settings::rank_allowed(call.rank)
        && shapes_settings::causal_allowed(call.causal)
        && shapes_settings::mode_allowed(call.mode)
        && shapes_settings::scale_allowed(call.scale)
        && shapes_settings::cap_allowed(call.softcap)
}

fn dimensions_hold(call: Call) -> bool
    requires { total_of call ≤ 2048 }
    ensures { result ≡ dimensions_hold call }
{
    shapes_tests::is_either(1, call.batches, call.maskb)
        && shapes_tests::is_either(1, call.qheads, call.maskh)
        && shapes_tests::is_either(1, call.qlen, call.maskq)
        && shapes_tests::is_either(1, call.past + call.klen, call.maskk)
}

#[tactic(auto, unfolding(call::specs::Limits::mask_shape_holds))]
fn mask_shape_holds(call: Call) -> bool
    requires { total_of call ≤ 2048 }
    ensures { result ≡ mask_shape_holds call }
{
    matches!(call.mask, MaskKind::NoMask) || dimensions_hold(call)
}

#[tactic(auto, unfolding(call::specs::Refusals::record_verdict))]
pub fn record_verdict(call: Call) -> Result<(), Refusal>
    ensures { result ≡ record_verdict call }
{
    if !limits_hold(call) {
        return Err(Refusal::Limits);
    }
    if !groups_hold(call) {
        return Err(Refusal::HeadGroups);
    }
    if !settings_hold(call) {
        return Err(Refusal::Settings);
    }
    if !mask_shape_holds(call) {
        return Err(Refusal::MaskShape);
    }
    Ok(())
}
