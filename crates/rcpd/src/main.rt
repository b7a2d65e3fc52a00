//! The program `rcpd`: a run of `rcpd_run` over TCP, with the roster on standard input and the report on standard output.
//!
//! It ends with the code of the status of its run, and says a status other than 0 in one line on standard error.
#![tactic(auto)]

mod listening;
mod serving;

use command_line::{report, texts, words};
use feed_format::Status;
use listening::listen;
use serving::serve;
use std::io;
use std::process::ExitCode;

/// Reports a status to standard error, and returns its code.
fn ended<P: Print>(errors: &P, status: Status) -> ExitCode {
    let _ = report("rcpd", status, &mut io::writer(errors));
    ExitCode::from(status.code())
}

fn main(rt: HostRuntime) -> ExitCode {
    let words = match words(&rt) {
        Ok(words) => words,
        Err(status) => return ended(&rt.stderr(), status),
    };
    let texts = match texts(rt.alloc(), &words) {
        Ok(texts) => texts,
        Err(status) => return ended(&rt.stderr(), status),
    };
    match listen(&rt, rt.alloc(), &texts) {
        Ok(mut outside) => ended(&rt.stderr(), serve(&rt, &texts, &mut outside)),
        Err(status) => ended(&rt.stderr(), status),
    }
}

#[cfg(test)]
mod tests;
