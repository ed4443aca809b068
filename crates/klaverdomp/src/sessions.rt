// The functions of saved sessions, as `klaverdomp_c` exports them. Every function takes any arguments; every number behind a reference is written, and is 0 where there is nothing to tell.
ghost use Rattle.std.specs.Prelude.{◌≡◌};
ghost use Rattle.session_file.specs.Reader.{read_of, load_of};
ghost use Rattle.session_file.specs.Writer.{begin_of, append_of};
ghost use Rattle.session_file.specs.Numbers.{reading_report, saving_report};
ghost use Rattle.session_interface.specs.Numbers.{ReadingHolds};
ghost use Rattle.session_interface.specs.Sessions.{loaded_with, loaded_report, saved_report, sizes_of, reading_by, saving_by, saved_by};

use call::Refusal;
use session_file::{Saved, SessionRead, Sizes};

// The number of a reading's report; the other seven numbers go behind the references.
fn tell_reading(
    reading: Result<SessionRead, Refusal>,
    batches: &mut u64,
    kvheads: &mut u64,
    size: &mut u64,
    vsize: &mut u64,
    positions: &mut u64,
    used: &mut u64,
    place: &mut u64,
) -> u32
    requires { ReadingHolds reading }
    ensures { reading_by result batches kvheads size vsize positions used place ≡ reading_report reading }
{
    let told = session_answers::report_reading(reading);
    *batches = told.batches;
    *kvheads = told.kvheads;
    *size = told.size;
    *vsize = told.vsize;
    *positions = told.positions;
    *used = told.used;
    *place = told.place;
    told.number
}

// The number of a saving's report; the other three numbers go behind the references.
fn tell_saving(
    saving: Result<Saved, Refusal>,
    positions: &mut u64,
    used: &mut u64,
    place: &mut u64,
) -> u32
    ensures { saving_by result positions used place ≡ saving_report saving }
{
    let told = session_answers::report_saving(saving);
    *positions = told.positions;
    *used = told.used;
    *place = told.place;
    told.number
}

// What stands in a file. The result is 0, with its sizes, how many positions are whole and how many bytes these have, or the number of the refusal, with its place.
pub fn klaverdomp_session_inspect_1(
    file: &[u8],
    batches: &mut u64,
    kvheads: &mut u64,
    size: &mut u64,
    vsize: &mut u64,
    positions: &mut u64,
    used: &mut u64,
    place: &mut u64,
) -> u32
    ensures { reading_by result batches kvheads size vsize positions used place ≡ reading_report (read_of file.now) }
{
    let reading = session_inspect::inspect(file);
    tell_reading(
        reading, batches, kvheads, size, vsize, positions, used, place,
    )
}

// The same, with the positions in caches of exactly their lengths.
pub fn klaverdomp_session_load_1(
    file: &[u8],
    keys: &mut [f32],
    values: &mut [f32],
    batches: &mut u64,
    kvheads: &mut u64,
    size: &mut u64,
    vsize: &mut u64,
    positions: &mut u64,
    used: &mut u64,
    place: &mut u64,
) -> u32
    ensures { loaded_with (reading_by result batches kvheads size vsize positions used place) keys.new values.new ≡ loaded_report (load_of file.now keys.old values.old) }
{
    let reading = session_load::load(file, keys, values);
    tell_reading(
        reading, batches, kvheads, size, vsize, positions, used, place,
    )
}

// Begins a file. The result is 0, with 0 positions and the bytes of the first record, or the number of the refusal.
pub fn klaverdomp_session_begin_1(
    buffer: &mut [u8],
    batches: u64,
    kvheads: u64,
    size: u64,
    vsize: u64,
    positions: &mut u64,
    used: &mut u64,
    place: &mut u64,
) -> u32
    ensures { saved_by result positions used place buffer ≡ saved_report (begin_of buffer.old (sizes_of batches kvheads size vsize)) }
{
    let sizes = Sizes {
        batches: batches as usize,
        kvheads: kvheads as usize,
        size: size as usize,
        vsize: vsize as usize,
    };
    let saving = session_begin::begin(buffer, sizes);
    tell_saving(saving, positions, used, place)
}

// Adds positions to the file that is the first `from` bytes of the buffer. The result is 0, with how many positions stand whole and how many bytes the file has, or the number of the refusal, with its place.
pub fn klaverdomp_session_append_1(
    buffer: &mut [u8],
    from: u64,
    count: u64,
    keys: &[f32],
    values: &[f32],
    positions: &mut u64,
    used: &mut u64,
    place: &mut u64,
) -> u32
    ensures { saved_by result positions used place buffer ≡ saved_report (append_of buffer.old from count keys.now values.now) }
{
    let saving = session_append::append(buffer, from as usize, count as usize, keys, values);
    tell_saving(saving, positions, used, place)
}
