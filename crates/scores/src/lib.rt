// The scores of a row's keys: the lanes of up to sixteen keys, then joined and scaled, in the order of step 1.
#![tactic(auto)]

ghost use Rattle.std.specs.Prelude.{◌≡◌, ℕ, ◌+◌, ◌*◌, ◌%◌, ◌≤◌, ◌<◌, length};
ghost use Rattle.tensor_laws.specs.Layout.{tabulate};
ghost use Rattle.softmax.specs.Lists.{score_rows_of};
ghost use Rattle.scores.specs.Sums.{joined_at, block_of};

// The scores of as many keys as `out` has elements, from their lanes.
fn join_lanes(lanes: &[f32], scale: f32, out: &mut [f32])
    requires { length out.old * 4 ≤ length lanes.now }
    ensures { out.new ≡ tabulate (length out.old) (joined_at lanes.now scale) }
{
    for (j, score) in out.iter_mut().enumerate() {
        let i = j * 4;
        *score = ((lanes[i] + lanes[i + 1]) + (lanes[i + 2] + lanes[i + 3])) * scale;
    }
}

// The scores of as many keys as `out` has elements, a multiple of four; `lanes` has room for theirs.
fn score_block(
    q: &[f32],
    keys: &[f32],
    stride: usize,
    scale: f32,
    lanes: &mut [f32],
    out: &mut [f32],
)
    requires out_len { (length out.old % 4 ≡ 0) × (length lanes.old ≡ length out.old * 4) }
    requires by_index { (j : ℕ) → j < length out.old → j * stride + length q.now ≤ length keys.now }
    ensures { out.new ≡ score_rows_of q.now keys.now stride scale (length out.old) }
{
    lanes_keys::sum_fours(q, keys, stride, lanes);
    lanes_keys::sum_rest(q, keys, stride, lanes);
    join_lanes(lanes, scale, out);
}

// The scores of as many keys as `out` has elements, one after the other; the row of key j starts at j * stride.
fn score_few(q: &[f32], keys: &[f32], stride: usize, scale: f32, out: &mut [f32])
    requires { (j : ℕ) → j < length out.old → j * stride + length q.now ≤ length keys.now }
    ensures { out.new ≡ score_rows_of q.now keys.now stride scale (length out.old) }
{
    for (j, score) in out.iter_mut().enumerate() {
        let at = j * stride;
        let e = at + q.len();
        *score = lanes_dot::dot(q, &keys[at..e]) * scale;
    }
}

// How many keys the next block has, of those that are left: as many fours as there are, sixteen at most.
fn block_size(left: usize) -> usize
    ensures { result ≡ block_of left }
{
    if left < 16 {
        return left / 4 * 4;
    }
    16
}

// The scores of as many keys as `out` has elements, up to sixteen at a time; the row of key j starts at j * stride.
pub fn score_rows(q: &[f32], keys: &[f32], stride: usize, scale: f32, out: &mut [f32])
    requires { (j : ℕ) → j < length out.old → j * stride + length q.now ≤ length keys.now }
    ensures { out.new ≡ score_rows_of q.now keys.now stride scale (length out.old) }
{
    let mut lanes = [0.0; 64];
    let n = out.len();
    let mut j = 0;
    // Kept: `step_by(16)` took 1 to 3 % more instructions in each form that was tried, and of what `chunks_mut` lends nothing is known afterwards.
    while 4 <= n - j {
        let at = j * stride;
        let m = block_size(n - j);
        let e = j + m;
        let w = m * 4;
        score_block(
            q,
            &keys[at..],
            stride,
            scale,
            &mut lanes[0..w],
            &mut out[j..e],
        );
        j = e;
    }
    if j < n {
        let at = j * stride;
        score_few(q, &keys[at..], stride, scale, &mut out[j..]);
    }
}
