// A call that is read, made through the entry and printed.
use super::input;
use super::lines::{Bits, Report};
use call::{Call, LentInputs};
use interface::Numbers;
use std::alloc::Global;
use std::io;
use std::io::{Read, Write};

// The tensors that a call reads.
#[derive(Drop)]
struct Inputs {
    query: Vec<f32>,
    key: Vec<f32>,
    value: Vec<f32>,
    boolmask: Vec<u8>,
    floatmask: Vec<f32>,
    pastkey: Vec<f32>,
    pastvalue: Vec<f32>,
    live: Vec<i64>,
}

impl Inputs {
    fn read<R: Read>(alloc: Global, from: &mut R) -> io::Result<Inputs> {
        Ok(Inputs {
            query: input::floats(alloc, from)?,
            key: input::floats(alloc, from)?,
            value: input::floats(alloc, from)?,
            boolmask: input::bytes(alloc, from)?,
            floatmask: input::floats(alloc, from)?,
            pastkey: input::floats(alloc, from)?,
            pastvalue: input::floats(alloc, from)?,
            live: input::counts(alloc, from)?,
        })
    }

    fn lend(&self) -> LentInputs<'_> {
        LentInputs {
            query: &self.query,
            key: &self.key,
            value: &self.value,
            boolmask: &self.boolmask,
            floatmask: &self.floatmask,
            pastkey: &self.pastkey,
            pastvalue: &self.pastvalue,
            live: &self.live,
        }
    }
}

// The tensors that are lent for writing.
#[derive(Drop)]
struct Outputs {
    output: Vec<f32>,
    presentkey: Vec<f32>,
    presentvalue: Vec<f32>,
    scores: Vec<f32>,
    work: Vec<f32>,
}

impl Outputs {
    fn read<R: Read>(alloc: Global, from: &mut R) -> io::Result<Outputs> {
        Ok(Outputs {
            output: input::floats(alloc, from)?,
            presentkey: input::floats(alloc, from)?,
            presentvalue: input::floats(alloc, from)?,
            scores: input::floats(alloc, from)?,
            work: input::floats(alloc, from)?,
        })
    }
}

// Makes the call, and gives its answer as numbers.
fn make(call: Call, inputs: &Inputs, outputs: &mut Outputs) -> Numbers {
    interface_answer::report(entry::attention(
        call,
        inputs.lend(),
        &mut outputs.output,
        &mut outputs.presentkey,
        &mut outputs.presentvalue,
        &mut outputs.scores,
        &mut outputs.work,
    ))
}

// Reads the tensors of a call, makes it and prints the rest of its line.
pub fn finish<R: Read, W: Write>(
    alloc: Global,
    from: &mut R,
    to: &mut W,
    call: Call,
) -> io::Result<()> {
    let inputs = Inputs::read(alloc, from)?;
    let mut outputs = Outputs::read(alloc, from)?;
    let report = Report(make(call, &inputs, &mut outputs));
    let Outputs {
        output,
        presentkey,
        presentvalue,
        scores,
        work,
    } = &outputs;
    write!(to, " |{report}")?;
    for tensor in [output, presentkey, presentvalue, scores, work] {
        write!(to, " |{}", Bits(tensor))?;
    }
    writeln!(to)
}

#[cfg(test)]
mod tests {
    use super::*;
    use std::test::Fail;

    // Example A in mode 0; the line is the reference's.
    #[test]
    fn call_is_printed(rt: HostRuntime) -> Result<(), Fail> {
        let mut from: &[u8] = b"0 0 1 0 4 0 1 1 1 1 1 0 1 1 1 1 1 1 3f800000 0\n\
            1 1 40000000\n1 1 40400000\n1 1 40a00000\n0\n0 0\n0 0\n0 0\n0\n\
            1 1 40f00000\n0 0\n0 0\n1 1 40f00000\n1 1 40f00000\n";
        let mut to = Vec::new(rt.alloc());
        let call = input::record(&mut from)?;
        finish(rt.alloc(), &mut from, &mut to, call)?;
        assert_eq!(rt;
            to.as_slice(),
            b" | 0 0 0 1 0 | 40a00000 | | | 40c00000 | 3f800000\n".as_slice()
        );
        Ok(())
    }
}
