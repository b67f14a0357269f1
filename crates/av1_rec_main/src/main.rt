//! Reads a text of recorded tile results from standard input, and writes the answer of `av1_rec`'s run.
//!
//! `av1_rec_main group 1` ends with the number of its status, which is 0 only where the report was
//! written.
#![tactic(auto)]

use av1_frame::OpenGate;
use av1_rec::{ReadSource, WriteSink, run};
use std::io;
use std::io::ErrorKind;
use std::process::ExitCode;

fn main(rt: HostRuntime) -> io::Result<ExitCode> {
    let alloc = rt.alloc();
    let words: Vec<String> = match std::env::args(&rt) {
        Ok(words) => words.skip(1).collect(alloc)?,
        Err(error) => {
            if error.kind() != ErrorKind::InvalidData {
                return Err(error);
            }
            // A word that isn't UTF-8 is part of no command, and no words are no command.
            Vec::new(alloc)
        }
    };
    let mut source = ReadSource::new(rt.stdin());
    let mut sink = WriteSink::new(rt.stdout());
    let status = run(&rt, alloc, &words, &mut source, &mut sink, &OpenGate);
    Ok(ExitCode::from(status.code()))
}
