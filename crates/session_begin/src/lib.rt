// Begins the file of a saved session. `begin` takes any sizes and any buffer.
#![tactic(auto)]

ghost use Rattle.std.specs.Prelude.{◌≡◌, true, ◌≤◌, length};
ghost use Rattle.records.specs.Records.{written_at};
ghost use Rattle.session_file.specs.Sizes.{sizes_hold};
ghost use Rattle.session_file.specs.Form.{sizes_bytes};
ghost use Rattle.session_file.specs.Writer.{written, begin_of};

use call::Refusal;
use session_file::{Saved, Sizes};

fn write_sizes(buffer: &mut [u8], sizes: Sizes)
    requires sizes_value { sizes_hold sizes ≡ true }
    requires in_bounds { 14 ≤ length buffer.old }
    ensures { buffer.new ≡ written_at buffer.old 0 (sizes_bytes sizes) }
{
    records_write::put_head(buffer, 0, 8, 1);
    records_write::put_u16(buffer, 6, sizes.batches as u16);
    records_write::put_u16(buffer, 8, sizes.kvheads as u16);
    records_write::put_u16(buffer, 10, sizes.size as u16);
    records_write::put_u16(buffer, 12, sizes.vsize as u16);
}

// A file of no positions from byte 0 on. Nothing in the buffer is looked at.
pub fn begin(buffer: &mut [u8], sizes: Sizes) -> Result<Saved, Refusal>
    ensures { written result buffer.new ≡ begin_of buffer.old sizes }
{
    if session_sizes::sizes_hold(sizes) {
        if 14 <= buffer.len() {
            write_sizes(buffer, sizes);
            return Ok(Saved {
                positions: 0,
                used: 14,
            });
        }
        return Err(Refusal::Room);
    }
    Err(Refusal::Limits)
}
