//! The program `rcpfeed`: feeds and outputs of `rcp` as text, over standard input and output.
//!
//! It ends with the code of its outcome, and says an outcome other than Done in one line on standard error.
#![tactic(auto)]

mod outcome;
mod tasks;
mod words;

use outcome::Outcome;
use standard_streams::{ReaderSource, WriterSink};
use std::io::{BufWriter, ErrorKind};
use std::process::ExitCode;
use std::rt::Env;
use std::{env, io};
use tasks::{flushed, perform};
use words::{Task, task_of};

/// Performs a task over standard input and output. Output is buffered; input is read a quarter of a megabyte at a time.
fn run_task<R: AllocGlobal + Input + Print>(rt: &R, task: Task) -> Outcome {
    let alloc = rt.alloc();
    let Ok(writer) = BufWriter::new(alloc, io::writer(rt)) else {
        return Outcome::NoMemory;
    };
    let mut source = ReaderSource::new(rt.reader());
    let mut sink = WriterSink::new(writer);
    let outcome = perform(alloc, task, &mut source, &mut sink);
    flushed(outcome, &mut sink)
}

/// The program's words, its name first. `Usage` where one isn't text.
fn all_words<R: AllocGlobal + Env>(rt: &R) -> Result<Vec<String>, Outcome> {
    let args = match env::args(rt) {
        Ok(args) => args,
        Err(error) if error.kind() == ErrorKind::OutOfMemory => return Err(Outcome::NoMemory),
        Err(_) => return Err(Outcome::Usage),
    };
    let mut words = Vec::new(rt.alloc());
    for word in args {
        if words.push(word).is_err() {
            return Err(Outcome::NoMemory);
        }
    }
    Ok(words)
}

fn main(rt: HostRuntime) -> ExitCode {
    let words = match all_words(&rt) {
        Ok(words) => words,
        Err(outcome) => return ended(&rt, outcome),
    };
    match task_of(rt.alloc(), &words) {
        Ok(Some(task)) => ended(&rt, run_task(&rt, task)),
        Ok(None) => ended(&rt, Outcome::Usage),
        Err(error) => {
            let code = error.exit_code() as u8;
            let _ = error.print(&rt);
            ExitCode::from(code)
        }
    }
}

/// Says an outcome other than Done on standard error, and gives its code.
fn ended<R: Eprint>(rt: &R, outcome: Outcome) -> ExitCode {
    if outcome != Outcome::Done {
        let _ = eprintln!(rt; "rcpfeed: {outcome}");
    }
    ExitCode::from(outcome.code())
}

#[cfg(test)]
mod tests;
