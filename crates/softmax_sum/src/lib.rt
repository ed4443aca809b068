// One row of attention: the weighted sum, a position after the other.
#![tactic(auto)]

ghost use Rattle.std.specs.Prelude.{◌≡◌, ℕ, ◌+◌, ◌*◌, ◌≤◌, ◌<◌, length};
ghost use Rattle.softmax.specs.Lists.{accumulated_row_of, weighted_rows_of};

// The output row with weight * value added in each column; `value` is a row of the same length.
fn accumulate(out: &mut [f32], weight: f32, value: &[f32])
    requires { length value.now ≡ length out.old }
    ensures { out.new ≡ accumulated_row_of weight value.now out.old }
{
    // By index: after `out.iter_mut().zip(value)` the proof does not know what stands in the row, and over `enumerate()` no edit can leave out a column.
    for c in 0..out.len() {
        out[c] += weight * value[c];
    }
}

// The output row with the weighted values of every position added, positions rising; the row of position j starts at j * stride.
pub fn weighted_rows(weights: &[f32], values: &[f32], stride: usize, out: &mut [f32])
    requires { (j : ℕ) → j < length weights.now → j * stride + length out.old ≤ length values.now }
    ensures { out.new ≡ weighted_rows_of weights.now values.now stride out.old }
{
    for (j, &weight) in weights.iter().enumerate() {
        let at = j * stride;
        accumulate(out, weight, &values[at..at + out.len()]);
    }
}
