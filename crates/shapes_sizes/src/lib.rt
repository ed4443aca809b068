// The right lengths of the lent tensors.
#![tactic(auto)]

ghost use Rattle.std.specs.Prelude.{◌≡◌, ◌⊎◌, true, ◌*◌, ◌≤◌};
ghost use Rattle.call.specs.declared.MaskKind.TheVariants.{Boolean, FloatMask};
ghost use Rattle.call.specs.Limits.{limits_hold, mask_shape_holds};
ghost use Rattle.call.specs.Lengths.{in_cached, in_boolean, in_float, mask_length, live_length, scores_length};

use call::{Call, Form, MaskKind};

// The product of four dimensions within their limits.
pub fn product(batches: usize, heads: usize, rows: usize, columns: usize) -> usize
    requires batches_bound { batches ≤ 8 }
    requires heads_bound { heads ≤ 32 }
    requires rows_bound { rows ≤ 2048 }
    requires columns_bound { columns ≤ 2048 }
    ensures { result ≡ batches * heads * rows * columns }
{
    batches * heads * rows * columns
}

// A tensor of the cached form, which has that many rows of that size for each batch and key head.
pub fn cached_length(call: Call, rows: usize, size: usize) -> usize
    requires call_value { limits_hold call ≡ true }
    requires rows_bound { rows ≤ 2048 }
    requires size_bound { size ≤ 256 }
    ensures { result ≡ in_cached call.form (call.batches * call.kvheads * rows * size) }
{
    match call.form {
        Form::Cached => product(call.batches, call.kvheads, rows, size),
        Form::Plain | Form::Counted => 0,
    }
}

pub fn live_length(call: Call) -> usize
    ensures { result ≡ live_length call }
{
    match call.form {
        Form::Counted => call.batches,
        Form::Plain | Form::Cached => 0,
    }
}

// The length of a mask, of either kind.
fn mask_length(call: Call) -> usize
    requires limits { limits_hold call ≡ true }
    requires shape { mask_shape_holds call ≡ true }
    requires masked { (call.mask ≡ Boolean) ⊎ (call.mask ≡ FloatMask) }
    ensures { result ≡ mask_length call }
{
    product(call.maskb, call.maskh, call.maskq, call.maskk)
}

pub fn boolmask_length(call: Call) -> usize
    requires call_value { limits_hold call ≡ true }
    requires call_value_2 { mask_shape_holds call ≡ true }
    ensures { result ≡ in_boolean call.mask (mask_length call) }
{
    match call.mask {
        MaskKind::Boolean => mask_length(call),
        MaskKind::NoMask | MaskKind::FloatMask => 0,
    }
}

pub fn floatmask_length(call: Call) -> usize
    requires call_value { limits_hold call ≡ true }
    requires call_value_2 { mask_shape_holds call ≡ true }
    ensures { result ≡ in_float call.mask (mask_length call) }
{
    match call.mask {
        MaskKind::FloatMask => mask_length(call),
        MaskKind::NoMask | MaskKind::Boolean => 0,
    }
}

pub fn scores_length(call: Call) -> usize
    requires { limits_hold call ≡ true }
    ensures { result ≡ scores_length call }
{
    match call.mode {
        None => 0,
        Some(_) => product(call.batches, call.qheads, call.qlen, call.past + call.klen),
    }
}
