// The lanes of four keys a pass.
#![tactic(auto)]

ghost use Rattle.std.specs.Prelude.{◌≡◌, ◌++◌, ◌+◌, ◌*◌, ◌≤◌, length};
ghost use Rattle.tensor_laws.specs.Layout.{tabulate};
ghost use Rattle.lanes.specs.Sums.{lane_at};

// Four rows of four elements, one after the other.
fn store_four(a: &[f32], b: &[f32], c: &[f32], d: &[f32], out: &mut [f32])
    requires a_len { (length a.now ≡ 4) × (length b.now ≡ 4) × (length c.now ≡ 4) × (length d.now ≡ 4) }
    requires out_len { length out.old ≡ 16 }
    ensures { out.new ≡ a.now ++ (b.now ++ (c.now ++ d.now)) }
{
    row_copies::copy_row(a, &mut out[0..4]);
    row_copies::copy_row(b, &mut out[4..8]);
    row_copies::copy_row(c, &mut out[8..12]);
    row_copies::copy_row(d, &mut out[12..16]);
}

// The lanes of four keys over as many fours of the row's elements as are asked for; the row of key j starts at j * stride. Four keys hide each other's latency.
pub fn sum_four(q: &[f32], keys: &[f32], stride: usize, fours: usize, lanes: &mut [f32])
    requires lanes_len { length lanes.old ≡ 16 }
    requires fours_in_bounds { fours * 4 ≤ length q.now }
    requires q_in_bounds { 3 * stride + length q.now ≤ length keys.now }
    ensures { lanes.new ≡ tabulate 16 (lane_at q.now keys.now stride (fours * 4)) }
{
    let mut a = [0.0; 4];
    let mut b = [0.0; 4];
    let mut c = [0.0; 4];
    let mut d = [0.0; 4];
    let n = q.len();
    let first = &keys[0..n];
    let second = &keys[stride..stride + n];
    let third = &keys[2 * stride..2 * stride + n];
    let fourth = &keys[3 * stride..3 * stride + n];
    for m in 0..fours {
        let i = m * 4;
        lanes_dot::add_lanes(&mut a, q, first, i, 4);
        lanes_dot::add_lanes(&mut b, q, second, i, 4);
        lanes_dot::add_lanes(&mut c, q, third, i, 4);
        lanes_dot::add_lanes(&mut d, q, fourth, i, 4);
    }
    store_four(&a, &b, &c, &d, lanes);
}
