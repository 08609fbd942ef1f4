//! The program: runs the command of its arguments, and ends with its status.
#![tactic(auto)]

use outside_io::{FileShelf, StdSink};
use std::env;
use std::process::ExitCode;
use tiresias_core::run;

/// The status where the arguments are not all texts.
const NO_WORDS: u8 = 12;

/// The status where memory is wanting, as of `run`.
const NO_MEMORY: u8 = 9;

fn main(rt: HostRuntime) -> ExitCode {
    let alloc = rt.alloc();
    let Ok(arguments) = env::args(&rt) else {
        return ExitCode::from(NO_WORDS);
    };
    let mut words = Vec::new(alloc);
    for word in arguments.skip(1) {
        if words.push(word).is_err() {
            return ExitCode::from(NO_MEMORY);
        }
    }
    let mut shelf = FileShelf::new(&rt);
    let mut out = StdSink::new(rt.stdout());
    let status = run(alloc, words.as_slice(), &mut shelf, &mut out);
    ExitCode::from(status.code())
}
