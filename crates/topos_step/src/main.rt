//! The program `topos-step`: the words of its command line, and both streams.
#![tactic(auto)]

use edge_io::{ErrorSink, StreamSink};
use load_core::Status;
use std::io::IsTerminal;
use std::process::ExitCode;
use std::rt::Env;
use std::{env, io};

fn main(rt: HostRuntime) -> ExitCode {
    let words = match words_after_name(&rt) {
        Ok(words) => words,
        Err(error) if error.kind() == io::ErrorKind::OutOfMemory => {
            return ExitCode::from(Status::Memory.number());
        }
        // A word that is not UTF-8: the command line is faulty, as one without words is.
        Err(_) => Vec::new(rt.alloc()),
    };
    let mut out = StreamSink::new(rt.stdout());
    let errors = rt.stderr();
    let is_terminal = errors.is_terminal();
    let mut err = ErrorSink::new(errors, is_terminal);
    let status = load_core::run(&words, &mut out, &mut err);
    ExitCode::from(status.number())
}

/// Returns the words after the program's own name.
fn words_after_name<R: Env + AllocGlobal>(rt: &R) -> io::Result<Vec<String>> {
    let words = env::args(rt)?.skip(1).collect(rt.alloc())?;
    Ok(words)
}
