// The weighted sum of sixteen columns, kept in a local array over the positions of a block.
#![tactic(auto)]

ghost use Rattle.std.specs.Prelude.{◌≡◌, ℕ, ◌+◌, ◌*◌, ◌≤◌, ◌<◌, length};
ghost use Rattle.softmax.specs.Lists.{weighted_rows_of};

// Sixteen columns with the weighted values of every position added.
fn sixteen_columns(weights: &[f32], values: &[f32], stride: usize, out: &mut [f32])
    requires out_len { length out.old ≡ 16 }
    requires by_index { (j : ℕ) → j < length weights.now → j * stride + 16 ≤ length values.now }
    ensures { out.new ≡ weighted_rows_of weights.now values.now stride out.old }
{
    let mut columns = [0.0; 16];
    row_copies::copy_row(out, &mut columns);
    softmax_sum::weighted_rows(weights, values, stride, &mut columns);
    row_copies::copy_row(&columns, out);
}

// The output row with the weighted values of every position added, sixteen columns at a time; the row of position j starts at j * stride.
pub fn weighted_columns(weights: &[f32], values: &[f32], stride: usize, out: &mut [f32])
    requires { (j : ℕ) → j < length weights.now → j * stride + length out.old ≤ length values.now }
    ensures { out.new ≡ weighted_rows_of weights.now values.now stride out.old }
{
    if weights.is_empty() {
        return;
    }
    let n = out.len();
    // By index: over `chunks_mut` the proof does not learn what stands in the row afterwards.
    for block in 0..n / 16 {
        let c = block * 16;
        sixteen_columns(weights, &values[c..], stride, &mut out[c..c + 16]);
    }
    // The columns that are left are one block more, or none. As a loop: where the compiler knows that they are below sixteen, they are not packed.
    for block in n / 16..n.div_ceil(16) {
        let c = block * 16;
        softmax_sum::weighted_rows(weights, &values[c..], stride, &mut out[c..]);
    }
}
