//! The program: `allsat enumerate` reads a formula from standard input and writes its listing to
//! standard output. What went wrong stands on standard error, and in the exit status.
#![tactic(auto)]

use allsat_run::{OpenGate, Status, Words, run, write_note};
use fault_io::{StdSink, StdSource};
use std::alloc::AllocError;
use std::io::{ErrorKind, Lock};
use std::process::ExitCode;
use std::rt::Env;
use std::{env, io};

/// Makes the real source, sinks and words, runs, and ends with the status's code.
fn main(rt: HostRuntime) -> ExitCode {
    let mut input = StdSource::make(rt.reader());
    let mut out = StdSink::make(io::writer(&rt));
    let mut notes = StdSink::make(rt.stderr().lock());
    let status = match given_words(&rt) {
        Ok(words) => {
            run(
                &rt,
                rt.alloc(),
                &words,
                &mut input,
                &mut out,
                &mut notes,
                &OpenGate,
            )
            .status
        }
        Err(_) => {
            write_note(&Status::OutOfMemory, &mut notes);
            Status::OutOfMemory
        }
    };
    ExitCode::from(status.code())
}

/// The words after the program's name. Where one is no UTF-8 text there are none, which is no
/// command.
fn given_words<R: Env + AllocGlobal>(rt: &R) -> Result<Words, AllocError> {
    let mut words = Words::make(rt.alloc());
    let arguments = match env::args(rt) {
        Ok(arguments) => arguments,
        Err(error) if error.kind() == ErrorKind::OutOfMemory => return Err(AllocError),
        Err(_) => return Ok(words),
    };
    for word in arguments.skip(1) {
        words.push(word.as_str())?;
    }
    Ok(words)
}
