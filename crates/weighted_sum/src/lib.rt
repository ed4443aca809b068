// The weighted sum of a row's values, sixteen columns of the output row at a time in a local array over blocks of positions, each column its own sum in the order of step 5.
#![tactic(auto)]

ghost use Rattle.std.specs.Prelude.{◌≡◌, ℕ, ◌+◌, ◌*◌, ◌≤◌, ◌<◌, length};
ghost use Rattle.softmax.specs.Lists.{weighted_rows_of};

// The output row with the weighted values of every position added, positions rising, in blocks of 32 positions, whose values stay near; the row of position j starts at j * stride.
pub fn weighted_rows(weights: &[f32], values: &[f32], stride: usize, out: &mut [f32])
    requires { (j : ℕ) → j < length weights.now → j * stride + length out.old ≤ length values.now }
    ensures { out.new ≡ weighted_rows_of weights.now values.now stride out.old }
{
    let n = weights.len();
    // By number: the blocks and the rest behind them are read by a call each.
    for block in 0..n / 32 {
        let j = block * 32;
        let at = j * stride;
        weighted_columns::weighted_columns(&weights[j..j + 32], &values[at..], stride, out);
    }
    let j = n / 32 * 32;
    if j < n {
        let at = j * stride;
        weighted_columns::weighted_columns(&weights[j..], &values[at..], stride, out);
    }
}
