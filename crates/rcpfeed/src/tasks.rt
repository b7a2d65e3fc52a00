//! The tasks over a source and a sink, which is flushed at the end.

ghost use Rattle.std.specs.Prelude.{◌≡◌, ◌<◌, ◌⊎◌, IfSome, true};
ghost use Rattle.outside.specs.Told.{Rose};
ghost use Rattle.rcpfeed.specs.Tasks.{Performs, says_all_written};

use crate::outcome::Outcome;
use crate::words::Task;
use feed_text::{ShowFault, WriteFault, show, write};
use outside::{Sink, Source};
use standard_streams::WriterSink;
use std::alloc::Global;
use std::io::Write;

/// Performs a task, from the source's first octet to its end.
pub fn perform<S: Source, K: Sink>(
    alloc: Global,
    task: Task,
    source: &mut S,
    sink: &mut K,
) -> Outcome
    // What was shown stands for exactly the octets of the source; what was written are exactly the records of the lines
    // before the first faulty one, which Text names.
    ensures performs { IfSome (S.left source.old) (λ input. Performs task input (K.taken sink.old) (K.taken sink.new) result) }
    ensures read { result ≡ Outcome.Read → Rose (S.faults source.old) (S.faults source.new) }
    ensures write { result ≡ Outcome.Write → Rose (K.faults sink.old) (K.faults sink.new) }
{
    match task {
        Task::Show(comments) => match show(alloc, comments, source, sink) {
            Ok(()) => Outcome::Done,
            Err(ShowFault::Read) => Outcome::Read,
            Err(ShowFault::Write) => Outcome::Write,
            Err(ShowFault::NoMemory) => Outcome::NoMemory,
            Err(ShowFault::TooLong) => Outcome::TooLong,
        },
        Task::Write => match write(alloc, source, sink) {
            Ok(()) => Outcome::Done,
            Err(WriteFault::Text(fault)) => Outcome::Text(fault),
            Err(WriteFault::Read) => Outcome::Read,
            Err(WriteFault::Write) => Outcome::Write,
            Err(WriteFault::NoMemory) => Outcome::NoMemory,
            Err(WriteFault::TooLong) => Outcome::TooLong,
        },
    }
}

/// The outcome after the sink's writer has written what it held back. Where that fails, output is lost that was due with
/// Done, Text, TooLong and Read, and the outcome is Write.
pub fn flushed<W: Write>(outcome: Outcome, sink: &mut WriterSink<W>) -> Outcome
    ensures cause { result ≡ Outcome.Write → (outcome ≡ Outcome.Write) ⊎ Rose sink.old sink.new }
    ensures kept { (result ≡ outcome) ⊎ ((says_all_written outcome ≡ true) × (result ≡ Outcome.Write)) }
    ensures lost { sink.old < sink.new → says_all_written outcome ≡ true → result ≡ Outcome.Write }
{
    match (outcome, sink.flush()) {
        (Outcome::Done | Outcome::Text(_) | Outcome::TooLong | Outcome::Read, Err(_)) => {
            Outcome::Write
        }
        (outcome, _) => outcome,
    }
}
