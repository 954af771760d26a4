//! The program `mcf`: the real files, the standard output, and nobody held.
#![tactic(auto)]

use mcf_base::{FileShelf, OpenGate, OutSink};
use mcf_cli::run;
use std::io::ErrorKind;
use std::process::ExitCode;
use std::{env, io};

// The status where the words of the command line find no memory.
const MEMORY: u8 = 6;

// The status where the words cannot be had for another cause.
const NO_WORDS: u8 = 7;

fn words(rt: &HostRuntime) -> io::Result<Vec<String>> {
    Ok(env::args(rt)?.skip(1).collect(rt.alloc())?)
}

fn main(rt: HostRuntime) -> ExitCode {
    let words = match words(&rt) {
        Ok(words) => words,
        Err(error) => {
            if error.kind() == ErrorKind::OutOfMemory {
                return ExitCode::from(MEMORY);
            }
            return ExitCode::from(NO_WORDS);
        }
    };
    let mut shelf = FileShelf::new(&rt, rt.alloc());
    let mut out = OutSink::new(io::writer(&rt));
    let ended = run(&rt, rt.alloc(), &words, &mut shelf, &mut out, &OpenGate);
    ExitCode::from(ended.status)
}
