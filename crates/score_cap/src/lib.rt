// The cap on a row of scores: each score s becomes c * t, with t near tanh(s / c), and a hidden position stays. A row is capped in blocks of 64, each step over all elements of a block before the next, so that E is taken of a whole block.
#![tactic(auto)]

ghost use Rattle.std.specs.Prelude.{◌≡◌, ◌≤◌, length};
ghost use Rattle.softmax.specs.Cap.{capped_row_of, capped_row_where};

// At most 64 scores under the cap. E is asked at -0 - (-(a + a)), which is a + a.
fn cap_block(row: &mut [f32], c: f32)
    requires { length row.old ≤ 64 }
    ensures { row.new ≡ capped_row_of c row.old }
{
    let mut quotients = [0.0; 64];
    let mut exponentials = [0.0; 64];
    let xs = &mut quotients[..row.len()];
    let terms = &mut exponentials[..row.len()];
    score_cap_steps::quotients(row, c, xs);
    score_cap_steps::minus_twices(xs, terms);
    exponential_row::exp_neg_row(terms, -0.0);
    score_cap_steps::cap_elements(row, c, xs, terms);
}

// A row of scores under the cap, where 0 of either sign is none.
#[tactic(auto, using(score_cap_steps::proofs::Marks::zero_is), unfolding(softmax::specs::Cap::capped_row_where))]
pub fn cap_row(row: &mut [f32], c: f32)
    ensures { row.new ≡ capped_row_where c row.old }
{
    if c == 0.0 {
        return;
    }
    let n = row.len();
    // By number: after a loop over `chunks_mut(64)` a proof knows the row's length, and no element.
    for block in 0..n / 64 {
        cap_block(&mut row[64 * block..64 * block + 64], c);
    }
    cap_block(&mut row[n - n % 64..], c);
}
