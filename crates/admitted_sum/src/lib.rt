// The weighted sum of a row over the positions that the mask leaves: run by run, each accumulated as a whole.
#![tactic(auto)]

ghost use Rattle.std.specs.Prelude.{◌≡◌, ℕ, ◌+◌, ◌*◌, ◌≤◌, ◌<◌, length};
ghost use Rattle.softmax.specs.Lists.{element_of};
ghost use Rattle.attention.specs.Admission.{repeated};
ghost use Rattle.admitted_sum.specs.Sums.{RunEnd, added_row_of};
ghost use Rattle.admitted_sum.specs.Masks.{HasCell, HasCells, admits};

use call::MaskKind;
use row_steps::RowMask;

// Where the mask's cell of a position stands.
fn cell_at(mask: RowMask<'_>, j: usize) -> usize
    requires { mask.at + j < 0x100000000 }
    ensures { result ≡ mask.entry.at + repeated mask.entry.width j }
{
    if mask.width == 1 {
        mask.at
    } else {
        mask.at + j
    }
}

// Whether the mask admits the key of a position.
fn admitted(mask: RowMask<'_>, j: usize) -> bool
    requires room { mask.at + j < 0x100000000 }
    requires has { HasCell mask j }
    ensures { result ≡ admits mask.entry j }
{
    match mask.kind {
        MaskKind::NoMask => true,
        MaskKind::Boolean => mask.bytes[cell_at(mask, j)] != 0,
        MaskKind::FloatMask => mask.cells[cell_at(mask, j)] != -f32::from_bits(0x7f800000),
    }
}

// The end of the run of admitted positions that starts at j, among n.
fn run_end(mask: RowMask<'_>, j: usize, n: usize) -> usize
    requires { (j ≤ n) × HasCells mask n }
    ensures { RunEnd (admits mask.entry) j n result }
{
    if let MaskKind::NoMask = mask.kind {
        return n;
    }
    (j..n).find(|&e| !admitted(mask, e)).unwrap_or(n)
}

// The output row with the weighted values of the admitted positions added; position j of those given is position from + j of the row.
pub fn weigh_admitted(
    mask: RowMask<'_>,
    from: usize,
    weights: &[f32],
    values: &[f32],
    stride: usize,
    out: &mut [f32],
)
    requires weights_bound { HasCells mask (from + length weights.now) }
    requires by_index { (j : ℕ) → j < length weights.now → j * stride + length out.old ≤ length values.now }
    ensures { out.new ≡ added_row_of (length weights.now) (λ j. admits mask.entry (from + j)) (element_of weights.now) (λ j k. element_of values.now (j * stride + k)) out.old }
{
    let n = weights.len();

    // No `for`: the next run starts behind the position that stopped this one.
    let mut j = 0;
    while j < n {
        let e = run_end(mask, from + j, from + n) - from;
        let start = j * stride;
        weighted_sum::weighted_rows(&weights[j..e], &values[start..], stride, out);
        j = e + 1;
    }
}
