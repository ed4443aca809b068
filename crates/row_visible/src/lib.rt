// Where a row of attention looks: the run of positions that it may see, and the start of its mask cells.
#![tactic(auto)]

ghost use Rattle.std.specs.Prelude.{◌≡◌, ◌+◌, ◌<◌, true};
ghost use Rattle.call.specs.Limits.{limits_hold, mask_shape_holds};
ghost use Rattle.attention.specs.Admission.{reach, repeated};
ghost use Rattle.row_steps.specs.Steps.{visible_of, mask_start};

use call::{Call, Form, MaskKind};

// How far row i reaches when the call is causal: P + i in every form.
fn reach(call: Call, live: usize, i: usize) -> usize
    requires { call.past + i < 4096 }
    ensures { result ≡ reach call.form call.past live i }
{
    match call.form {
        Form::Plain => call.past + i,
        Form::Cached => call.past + i,
        Form::Counted => call.past + i,
    }
}

// How many positions, from 0, row i may see: those below the live count and, when causal, up to the last causal one.
#[tactic(auto, using(attention::proofs::Reached::reach_is))]
pub fn visible(call: Call, live: usize, i: usize) -> usize
    requires { call.past + i < 4096 }
    ensures { result ≡ visible_of call live i }
{
    if call.causal == 0 {
        return live;
    }
    live.min(reach(call, live, i) + 1)
}

// x, and 0 in a dimension of 1, which is repeated.
fn repeated_at(dimension: usize, x: usize) -> usize
    ensures { result ≡ repeated dimension x }
{
    if dimension == 1 { 0 } else { x }
}

// Where the mask's cells of row (b, h, i) start; 0 without a mask, whose dimensions are not looked at.
pub fn mask_start(call: Call, b: usize, h: usize, i: usize) -> usize
    requires call_value { (limits_hold call ≡ true) × (mask_shape_holds call ≡ true) }
    requires b_lt_batches { (b < call.batches) × (h < call.qheads) × (i < call.qlen) }
    ensures { result ≡ mask_start call.mask call b h i }
{
    if let MaskKind::NoMask = call.mask {
        return 0;
    }
    let batch = repeated_at(call.maskb, b);
    let head = repeated_at(call.maskh, h);
    let row = repeated_at(call.maskq, i);
    ((batch * call.maskh + head) * call.maskq + row) * call.maskk
}
