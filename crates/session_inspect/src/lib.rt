// What stands in the file of a saved session. `inspect` takes any bytes.
#![tactic(auto)]

ghost use Rattle.std.specs.Prelude.{◌≡◌, ◌≤◌, length};
ghost use Rattle.session_file.specs.Reader.{sizes_at, read_of};

use call::Refusal;
use session_file::{SessionRead, Sizes};

// The sizes that the first record holds.
fn sizes_at(file: &[u8]) -> Sizes
    requires { 14 ≤ length file.now }
    ensures { result ≡ sizes_at file.now }
{
    Sizes {
        batches: records_read::u16_at(file, 6) as usize,
        kvheads: records_read::u16_at(file, 8) as usize,
        size: records_read::u16_at(file, 10) as usize,
        vsize: records_read::u16_at(file, 12) as usize,
    }
}

// The sizes of a file and how many positions are whole in it, or the first fault in byte order.
pub fn inspect(file: &[u8]) -> Result<SessionRead, Refusal>
    ensures { result ≡ read_of file.now }
{
    if 14 <= file.len() {
        if records_read::head_is(file, 0, 8, 1) {
            let sizes = sizes_at(file);
            if session_sizes::sizes_hold(sizes) {
                return session_walk::walk(file, sizes);
            }
            return Err(Refusal::Limits);
        }
    }
    Err(Refusal::Record { byte: 0 })
}
