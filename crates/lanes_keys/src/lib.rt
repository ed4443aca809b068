// The lanes of many keys, four keys a pass.
#![tactic(auto)]

ghost use Rattle.std.specs.Prelude.{◌≡◌, ℕ, ◌+◌, ◌*◌, ◌/◌, ◌%◌, ◌≤◌, ◌<◌, length};
ghost use Rattle.tensor_laws.specs.Layout.{tabulate};
ghost use Rattle.lanes.specs.Sums.{lane_at};

// The lanes of keys over the row's fours, four keys a pass.
pub fn sum_fours(q: &[f32], keys: &[f32], stride: usize, lanes: &mut [f32])
    requires lanes_len { length lanes.old % 16 ≡ 0 }
    requires by_index { (j : ℕ) → j * 4 < length lanes.old → j * stride + length q.now ≤ length keys.now }
    ensures { lanes.new ≡ tabulate (length lanes.old) (lane_at q.now keys.now stride (length q.now / 4 * 4)) }
{
    let fours = q.len() / 4;
    let passes = lanes.len() / 16;
    for p in 0..passes {
        let at = p * 4 * stride;
        let a = p * 16;
        let e = a + 16;
        lanes_four::sum_four(q, &keys[at..], stride, fours, &mut lanes[a..e]);
    }
}

// The lanes of keys over the whole row, from those over its fours: what a head size leaves beyond them.
pub fn sum_rest(q: &[f32], keys: &[f32], stride: usize, lanes: &mut [f32])
    requires lanes_value { lanes.old ≡ tabulate (length lanes.old) (lane_at q.now keys.now stride (length q.now / 4 * 4)) }
    requires lanes_len { length lanes.old % 4 ≡ 0 }
    requires by_index { (j : ℕ) → j * 4 < length lanes.old → j * stride + length q.now ≤ length keys.now }
    ensures { lanes.new ≡ tabulate (length lanes.old) (lane_at q.now keys.now stride (length q.now)) }
{
    let from = q.len() / 4 * 4;
    let count = q.len() % 4;
    if count == 0 {
        return;
    }
    let n = lanes.len() / 4;
    for j in 0..n {
        let at = j * stride;
        let end = at + q.len();
        let a = j * 4;
        let e = a + 4;
        lanes_dot::add_lanes(&mut lanes[a..e], q, &keys[at..end], from, count);
    }
}
