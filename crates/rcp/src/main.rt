//! The program `rcp`: a command of `rcp_run` over standard input and output, both of them buffered.
//!
//! It ends with the code of the status of its run, and says a status other than 0 in one line on standard error.
#![tactic(auto)]

mod steps;

use command_line::{report, words};
use rcp_run::Status;
use standard_streams::{ReaderSource, WriterSink};
use std::io;
use std::io::{BufReader, BufWriter};
use std::process::ExitCode;
use std::rt::Env;
use std::thread::Threads;

/// Runs the command of the words that follow the program's name, over standard input and output.
fn run_program<R: AllocGlobal + Env + Input + Print + Threads + Sync>(rt: &R) -> Status {
    let alloc = rt.alloc();
    let words = match words(rt) {
        Ok(words) => words,
        Err(status) => return status,
    };
    let Ok(reader) = BufReader::new(alloc, rt.reader()) else {
        return Status::NoMemory;
    };
    let Ok(writer) = BufWriter::new(alloc, io::writer(rt)) else {
        return Status::NoMemory;
    };
    let mut source = ReaderSource::new(reader);
    let mut sink = WriterSink::new(writer);
    steps::run_words(rt, alloc, &words, &mut source, &mut sink)
}

fn main(rt: HostRuntime) -> ExitCode {
    let status = run_program(&rt);
    let _ = report("rcp", status, &mut io::writer(&rt.stderr()));
    ExitCode::from(status.code())
}

#[cfg(test)]
mod tests;
