// A refusal and an answer as numbers. Every function takes any of them.
// These are functions and no `From`: the types live in crates of definitions, which have no functions.
#![tactic(auto)]

ghost use Rattle.std.specs.Prelude.{◌≡◌};
ghost use Rattle.call.specs.Answers.{number_of, fault_tensor_of, place_of, report_of};
ghost use Rattle.interface.specs.Report.{report_in};

use call::{Done, Refusal};
use interface::Numbers;

pub fn number_of(refusal: Refusal) -> u32
    ensures { result ≡ number_of refusal }
{
    match refusal {
        Refusal::Limits => 1,
        Refusal::HeadGroups => 2,
        Refusal::Settings => 3,
        Refusal::MaskShape => 4,
        Refusal::InputLength => 5,
        Refusal::OutputLength => 6,
        Refusal::LiveCount { .. } => 7,
        Refusal::MaskCell { .. } => 8,
        Refusal::Element { .. } | Refusal::Position { .. } => 9,
        Refusal::Profile => 10,
        Refusal::Record { .. } => 11,
        Refusal::Room => 16,
    }
}

fn fault_tensor_of(refusal: Refusal) -> u64
    ensures { result ≡ fault_tensor_of refusal }
{
    match refusal {
        Refusal::Element { tensor, .. } => tensor as u64,
        _ => 0,
    }
}

pub fn place_of(refusal: Refusal) -> u64
    ensures { result ≡ place_of refusal }
{
    match refusal {
        Refusal::LiveCount { index } | Refusal::MaskCell { index } => index as u64,
        Refusal::Element { index, .. } => index as u64,
        Refusal::Position { position } => position as u64,
        Refusal::Record { byte } => byte as u64,
        _ => 0,
    }
}

pub fn report(answer: Result<Done, Refusal>) -> Numbers
    ensures { report_in result ≡ report_of answer }
{
    match answer {
        Ok(done) => Numbers {
            number: 0,
            tensor: 0,
            index: 0,
            total: done.total as u64,
            masked: done.masked as u64,
        },
        Err(refusal) => Numbers {
            number: number_of(refusal),
            tensor: fault_tensor_of(refusal),
            index: place_of(refusal),
            total: 0,
            masked: 0,
        },
    }
}
