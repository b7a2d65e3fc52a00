//! The words of a program's command line, and the line that says how its run ended.
//!
//! ```text
//! let words = words(&rt)?;
//! let status = run(&texts(rt.alloc(), &words)?);
//! report("rcp", status, &mut io::writer(&rt.stderr()))?; // a line such as "rcp: usage", and nothing for Done
//! ```
#![tactic(auto)]

ghost use Rattle.std.specs.Prelude.{◌≡◌, map, IfOk, string_bytes};

use feed_format::Status;
use std::alloc::Global;
use std::io::{ErrorKind, Write};
use std::rt::Env;
use std::{env, io};

/// The words that follow the program's name. `Usage` where one isn't text, `NoMemory` where there was no memory for them.
pub fn words<R: AllocGlobal + Env>(rt: &R) -> Result<Vec<String>, Status> {
    let mut words = Vec::new(rt.alloc());
    let args = match env::args(rt) {
        Ok(args) => args,
        Err(error) if error.kind() == ErrorKind::OutOfMemory => return Err(Status::NoMemory),
        Err(_) => return Err(Status::Usage),
    };
    for word in args.skip(1) {
        if words.push(word).is_err() {
            return Err(Status::NoMemory);
        }
    }
    Ok(words)
}

/// The words as borrowed texts. The error is `NoMemory`.
pub fn texts(alloc: Global, words: &[String]) -> Result<Vec<&str>, Status>
    ensures same { IfOk result (λ texts. map (λ text. text.now) texts.items ≡ map string_bytes words.now) }
{
    let mut texts = Vec::new(alloc);
    for word in words {
        if texts.push(word.as_str()).is_err() {
            return Err(Status::NoMemory);
        }
    }
    Ok(texts)
}

/// Writes a status other than Done as a line, after the program's name.
pub fn report<W: Write>(program: &str, status: Status, errors: &mut W) -> io::Result<()> {
    if status == Status::Done {
        return Ok(());
    }
    writeln!(errors, "{program}: {status}")
}

#[cfg(test)]
mod tests;
