// One row of attention: the weights of a row of scores, in place. Rows are parts of the caller's slices, read and written where they stand.
#![tactic(auto)]

ghost use Rattle.std.specs.Prelude.{◌≡◌, ◌≤◌, T, length, map};
ghost use Rattle.std.specs.Float.{binary32};
ghost use Rattle.std.specs.Float.Ieee.{div};
ghost use Rattle.softmax.specs.Lists.{is_score_row, softmax_row_of, fully_masked_row_of, largest_row_of, total_row_of};

// The largest element of a row of scores, and minus infinity where every position is hidden.
fn largest(row: &[f32]) -> f32
    requires { T (is_score_row row.now) }
    ensures { result ≡ largest_row_of row.now }
{
    let mut m = -f32::from_bits(0x7f800000);
    for &x in row {
        if m < x {
            m = x;
        }
    }
    m
}

// The sum of the elements, from +0.
fn total(row: &[f32]) -> f32
    ensures { result ≡ total_row_of row.now }
{
    let mut sum = 0.0;
    for &x in row {
        sum += x;
    }
    sum
}

// Each element is divided by x.
fn divide_row(row: &mut [f32], x: f32)
    ensures { row.new ≡ map (λ e. div binary32 e x) row.old }
{
    for e in row.iter_mut() {
        *e /= x;
    }
}

// The weights of a row of scores, in place, and whether the row is fully masked. A fully masked row is not handed to E, which has no value there.
pub fn softmax_row(row: &mut [f32]) -> bool
    requires t { T (is_score_row row.old) }
    requires row_len_bound { length row.old ≤ 2048 }
    ensures { (result ≡ fully_masked_row_of row.old) × (row.new ≡ softmax_row_of row.old) }
{
    let m = largest(row);
    if m == -f32::from_bits(0x7f800000) {
        row_copies::fill_row(row, 0.0);
        return true;
    }
    exponential_row::exp_neg_row(row, m);
    let sum = total(row);
    divide_row(row, sum);
    false
}
