// Runs the calls of standard input through the entry and prints a line for each: its label, the answer, and the bits of the five tensors lent for writing.
// What it reads and what it must print are made by tools, what it must print by a reference that shares no code with the crates:
//     python3 tools/vectors.py calls > crates/call_examples/stdin
//     python3 tools/vectors.py examples > crates/call_examples/stdout
#![tactic(auto)]

mod calls;
mod input;
mod lines;

use std::alloc::Global;
use std::io;
use std::io::{BufReader, BufWriter, Read, Write};

// Makes the calls, of which there are as many as the first number says.
fn run<R: Read, W: Write>(alloc: Global, from: &mut R, to: &mut W) -> io::Result<()> {
    for _ in 0..input::number(from)? {
        input::copy_label(from, to)?;
        let call = input::record(from)?;
        calls::finish(alloc, from, to, call)?;
    }
    to.flush()
}

// Ends with an error where a read, a write or an allocation fails.
fn main(rt: HostRuntime) -> io::Result<()> {
    let alloc = rt.alloc();
    let mut from = BufReader::new(alloc, rt.reader())?;
    let mut to = BufWriter::new(alloc, io::writer(&rt))?;
    run(alloc, &mut from, &mut to)
}
