//! The command. It takes the arguments, the standard input and the standard output, runs what the
//! arguments ask for, and ends with the exit status of the run.
//!
//! What it does before it calls `run` is in no contract. It writes nothing to standard error.
#![tactic(auto)]

use kin_io::standard::{StdSink, StdSource};
use kin_run::run::run;
use kin_run::status::Status;
use std::alloc::AllocError;
use std::process::ExitCode;
use std::rt::Env;
use std::{env, io};
use thiserror::Error;

/// Why there are no arguments to run. It only distinguishes two statuses, and is never printed.
#[derive(Debug, Drop, Error)]
enum WordsFault {
    #[error("no memory for the words")]
    NoMemory(#[from(alloc)] AllocError),
    #[error("the words are not text")]
    NotText,
}

impl From<io::Error> for WordsFault {
    fn from(error: io::Error) -> WordsFault {
        match error.kind() {
            io::ErrorKind::OutOfMemory => WordsFault::NoMemory(AllocError),
            _ => WordsFault::NotText,
        }
    }
}

/// The arguments.
fn words_of<R: Env + AllocGlobal>(rt: &R) -> Result<Vec<String>, WordsFault> {
    Ok(env::args(rt)?.skip(1).collect(rt.alloc())?)
}

fn main(rt: HostRuntime) -> ExitCode {
    let status = match words_of(&rt) {
        Ok(words) => {
            let mut source = StdSource::new(rt.reader());
            let mut sink = StdSink::new(io::writer(&rt));
            run(rt.alloc(), &words, &mut source, &mut sink)
        }
        Err(WordsFault::NoMemory(_)) => Status::NoMemory,
        Err(WordsFault::NotText) => Status::Words,
    };
    ExitCode::from(status.exit())
}
