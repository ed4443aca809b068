// Adds positions to the file of a saved session, all of them or none. `append` takes any numbers and any buffer.
#![tactic(auto)]

ghost use Rattle.std.specs.Prelude.{◌≡◌, ℕ, Some, true, ◌+◌, ◌≤◌};
ghost use Rattle.call.specs.Refusals.{where_found};
ghost use Rattle.call.specs.declared.Refusal.TheVariants.{Position};
ghost use Rattle.session_file.specs.Sizes.{sizes_hold};
ghost use Rattle.session_file.specs.Reader.{session_read};
ghost use Rattle.session_file.specs.Writer.{written, appended_to, append_of};

use call::Refusal;
use session_file::{Saved, Sizes};

// The verdict on the added positions, by the first at fault; the position in the file is told.
fn position_verdict(found: Option<usize>, n: usize) -> Result<(), Refusal>
    requires { (p : ℕ) → found ≡ Some p → n + p ≤ 4096 }
    ensures { result ≡ where_found found (λ p. Position (n + p)) }
{
    match found {
        Some(fault) => Err(Refusal::Position {
            position: n + fault,
        }),
        None => Ok(()),
    }
}

// Positions behind the last whole record of a file that has n whole positions of those sizes.
fn append_to(
    buffer: &mut [u8],
    sizes: Sizes,
    n: usize,
    count: usize,
    keys: &[f32],
    values: &[f32],
) -> Result<Saved, Refusal>
    requires sizes_value { sizes_hold sizes ≡ true }
    requires n_bound { n ≤ 2048 }
    ensures { written result buffer.new ≡ appended_to (session_read sizes n) buffer.old count keys.now values.now }
{
    if 2048 - n < count {
        return Err(Refusal::Limits);
    }
    if !session_sizes::caches_fit(sizes, count, keys.len(), values.len()) {
        return Err(Refusal::InputLength);
    }
    position_verdict(session_rows::first_fault(keys, values, sizes, count), n)?;
    let from = session_sizes::record_start(sizes, n);
    let to = session_sizes::record_start(sizes, n + count);
    if buffer.len() < to {
        return Err(Refusal::Room);
    }
    session_positions::write_positions(keys, values, sizes, count, &mut buffer[from..to]);
    Ok(Saved {
        positions: n + count,
        used: to,
    })
}

// Adds `count` positions behind the last whole record of the file that is the first `used` bytes of the buffer.
pub fn append(
    buffer: &mut [u8],
    used: usize,
    count: usize,
    keys: &[f32],
    values: &[f32],
) -> Result<Saved, Refusal>
    ensures { written result buffer.new ≡ append_of buffer.old used count keys.now values.now }
{
    if buffer.len() < used {
        return Err(Refusal::Room);
    }
    let read = session_inspect::inspect(&buffer[..used])?;
    append_to(buffer, read.sizes, read.positions, count, keys, values)
}
