// The four lanes of one key, each its own sum in the order of step 1, and the dot product.
#![tactic(auto)]

ghost use Rattle.std.specs.Prelude.{◌≡◌, ◌+◌, ◌%◌, ◌≤◌, length};
ghost use Rattle.softmax.specs.Lists.{dot_row_of};
ghost use Rattle.lanes.specs.Sums.{lanes_of};

// The four lanes of two rows of the same length over the elements before `from`, which is a multiple of four, with the products of up to four elements more, each in its own lane.
#[tactic(auto, using(lanes::proofs::Lanes::lanes_four, lanes::proofs::Lanes::lanes_next, lanes::proofs::Lanes::remainder_behind))]
pub fn add_lanes(lanes: &mut [f32], q: &[f32], k: &[f32], from: usize, count: usize)
    requires lanes_value { lanes.old ≡ lanes_of q.now k.now from }
    requires from_value { (from % 4 ≡ 0) × (count ≤ 4) }
    requires count_in_bounds { (from + count ≤ length q.now) × (length q.now ≡ length k.now) }
    ensures { lanes.new ≡ lanes_of q.now k.now (from + count) }
{
    for l in 0..count {
        lanes[l] = lanes[l] + q[from + l] * k[from + l];
    }
}

// The dot product of two rows of the same length.
pub fn dot(q: &[f32], k: &[f32]) -> f32
    requires { length q.now ≡ length k.now }
    ensures { result ≡ dot_row_of q.now k.now }
{
    let mut lanes = [0.0; 4];
    let fours = q.len() / 4;
    for m in 0..fours {
        add_lanes(&mut lanes, q, k, m * 4, 4);
    }
    add_lanes(&mut lanes, q, k, fours * 4, q.len() % 4);
    (lanes[0] + lanes[1]) + (lanes[2] + lanes[3])
}
