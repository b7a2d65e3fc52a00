//! The run of words over a source and a sink that is flushed at the end.

ghost use Rattle.std.specs.Prelude.{◌≡◌, ◌<◌, ◌⊎◌, true};
ghost use Rattle.outside.specs.Told.{Rose};
ghost use Rattle.rcp.specs.Flushes.{says_all_written};

use command_line::texts;
use outside::Source;
use rcp_run::{Status, run};
use standard_streams::WriterSink;
use std::alloc::Global;
use std::io::Write;
use std::thread::Threads;

/// Runs the command of the words over the source and the sink, and writes what the sink's writer holds back.
pub fn run_words<R: Threads + Sync, S: Source, W: Write>(
    rt: &R,
    alloc: Global,
    words: &[String],
    source: &mut S,
    sink: &mut WriterSink<W>,
) -> Status {
    let texts = match texts(alloc, words) {
        Ok(texts) => texts,
        Err(status) => return status,
    };
    let status = run(rt, alloc, &texts, source, sink);
    flushed(status, sink)
}

/// The status once the sink's writer has written what it held back. Where that fails, output is lost that was due with
/// Done, Feed, Roster and Read, and the status is Write.
fn flushed<W: Write>(status: Status, sink: &mut WriterSink<W>) -> Status
    // Write stands only where it stood before, or where the sink failed in the flush.
    ensures cause { result ≡ Status.Write → (status ≡ Status.Write) ⊎ Rose (sink.old) (sink.new) }

    // It takes the place only of a status that says that all output was written, and does so where the flush failed.
    ensures kept { (result ≡ status) ⊎ ((says_all_written status ≡ true) × (result ≡ Status.Write)) }
    ensures lost { sink.old < sink.new → says_all_written status ≡ true → result ≡ Status.Write }
{
    match (status, sink.flush()) {
        (Status::Done | Status::Feed { .. } | Status::Roster { .. } | Status::Read, Err(_)) => {
            Status::Write
        }
        (status, _) => status,
    }
}
