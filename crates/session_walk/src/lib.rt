// The walk over the records of positions of a saved session.
#![tactic(auto)]

ghost use Rattle.std.specs.Prelude.{◌≡◌, true, ◌≤◌};
ghost use Rattle.session_file.specs.Sizes.{sizes_hold};
ghost use Rattle.session_file.specs.Reader.{next_of, walk_from};

use call::Refusal;
use session_file::{Next, SessionRead, Sizes};

// What stands where the record of position p would begin.
fn next(file: &[u8], sizes: Sizes, p: usize) -> Next
    requires sizes_value { sizes_hold sizes ≡ true }
    requires p_bound { p ≤ 2048 }
    ensures { result ≡ next_of sizes file.now p }
{
    let at = session_sizes::record_start(sizes, p);
    let long = session_sizes::payload_length(sizes);
    if file.len() < at + 6 {
        return Next::Ended;
    }
    if records_read::head_is(file, at, long as u32, 2) {
        if file.len() < at + (6 + long) {
            return Next::Cut;
        }
        return Next::Whole;
    }
    Next::Wrong
}

// The walk over the records of positions.
pub fn walk(file: &[u8], sizes: Sizes) -> Result<SessionRead, Refusal>
    requires { sizes_hold sizes ≡ true }
    ensures { result ≡ walk_from sizes file.now 2048 0 }
{
    for p in 0..2048 {
        match next(file, sizes, p) {
            Next::Whole => {
                if session_faults::position_fault(file, sizes, p) {
                    return Err(Refusal::Position { position: p });
                }
            }
            Next::Wrong => {
                let byte = session_sizes::record_start(sizes, p);
                return Err(Refusal::Record { byte });
            }
            Next::Ended => {
                return Ok(SessionRead {
                    sizes,
                    positions: p,
                });
            }
            Next::Cut => {
                return Ok(SessionRead {
                    sizes,
                    positions: p,
                });
            }
        }
    }
    at_most(file, sizes)
}

// What stands behind 2,048 whole positions.
fn at_most(file: &[u8], sizes: Sizes) -> Result<SessionRead, Refusal>
    requires { sizes_hold sizes ≡ true }
    ensures { result ≡ walk_from sizes file.now 0 2048 }
{
    match next(file, sizes, 2048) {
        Next::Ended => Ok(SessionRead {
            sizes,
            positions: 2048,
        }),
        Next::Wrong => {
            let byte = session_sizes::record_start(sizes, 2048);
            Err(Refusal::Record { byte })
        }
        Next::Cut => Err(Refusal::Limits),
        Next::Whole => Err(Refusal::Limits),
    }
}
