// The house exponential over a row, in blocks: the product by the power of two, and all steps together.
#![tactic(auto)]

ghost use Rattle.std.specs.Prelude.{◌≡◌, ◌≤◌, length};
ghost use Rattle.tables.specs.Power.{power_bits};
ghost use Rattle.exponential.specs.ExpNeg.{exp_neg_row_of};

// E over at most 64 elements, each step over all of them before the next.
#[tactic(auto, using(exponential::proofs::Blocks::exponents_are, exponential::proofs::Blocks::all_steps))]
fn exp_block(powers: &[u32; 256], row: &mut [f32], largest: f32)
    requires powers_value { powers.now ≡ power_bits }
    requires row_len_bound { length row.old ≤ 64 }
    ensures { row.new ≡ exp_neg_row_of largest row.old }
{
    let mut numbers = [0; 64];
    let wholes = &mut numbers[..row.len()];
    exponential_steps::exponents(row, largest);
    exponential_whole::whole_parts(row, wholes);
    exponential_steps::polys(row, wholes);
    exponential_powers::times_powers(powers, row, wholes);
}

// Each element s of the row becomes E(largest - s), and +0 where that has no value. The table is bound once.
#[tactic(auto, unfolding(exponential::specs::ExpNeg::exp_neg_row_of))]
pub fn exp_neg_row(row: &mut [f32], largest: f32)
    ensures { row.new ≡ exp_neg_row_of largest row.old }
{
    let powers = tables::table::POWERS;
    let n = row.len();
    // By number: after a loop over `chunks_mut(64)` a proof knows the row's length, and no element.
    for block in 0..n / 64 {
        exp_block(&powers, &mut row[64 * block..64 * block + 64], largest);
    }
    exp_block(&powers, &mut row[n - n % 64..], largest);
}
