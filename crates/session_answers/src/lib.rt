// The answers of the reader and the writer of saved sessions as numbers.
// These are functions and no `From`: the types live in crates of definitions, which have no functions, and `report_reading` has a `requires`.
#![tactic(auto)]

ghost use Rattle.std.specs.Prelude.{◌≡◌};
ghost use Rattle.session_file.specs.Numbers.{reading_report, saving_report};
ghost use Rattle.session_interface.specs.Numbers.{ReadingHolds, reading_in, saving_in};

use call::Refusal;
use session_file::{Saved, SessionRead};
use session_interface::{ReadingNumbers, SavingNumbers};

pub fn report_reading(reading: Result<SessionRead, Refusal>) -> ReadingNumbers
    requires { ReadingHolds reading }
    ensures { reading_in result ≡ reading_report reading }
{
    match reading {
        Ok(read) => ReadingNumbers {
            number: 0,
            batches: read.sizes.batches as u64,
            kvheads: read.sizes.kvheads as u64,
            size: read.sizes.size as u64,
            vsize: read.sizes.vsize as u64,
            positions: read.positions as u64,
            used: session_sizes::record_start(read.sizes, read.positions) as u64,
            place: 0,
        },
        Err(refusal) => ReadingNumbers {
            number: interface_answer::number_of(refusal),
            batches: 0,
            kvheads: 0,
            size: 0,
            vsize: 0,
            positions: 0,
            used: 0,
            place: interface_answer::place_of(refusal),
        },
    }
}

pub fn report_saving(saving: Result<Saved, Refusal>) -> SavingNumbers
    ensures { saving_in result ≡ saving_report saving }
{
    match saving {
        Ok(saved) => SavingNumbers {
            number: 0,
            positions: saved.positions as u64,
            used: saved.used as u64,
            place: 0,
        },
        Err(refusal) => SavingNumbers {
            number: interface_answer::number_of(refusal),
            positions: 0,
            used: 0,
            place: interface_answer::place_of(refusal),
        },
    }
}
