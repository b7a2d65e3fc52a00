//! Feeds as text: the records that are fed, and those that are written.

mod decisions;
mod faults;
mod generated;
mod link_state;
mod refusals;
mod reports;
mod sessions;
mod slices;
mod text;
mod updates;

use crate::{Status, run};
use outside::{MemSink, MemSource, Source};
use std::alloc::{AllocError, Global};
use std::test::Fail;
use std::thread::Threads;
use text::octets_of;

/// What it shows, the records that are fed before the record Z, and those that are written.
type Row<'a> = (&'a str, &'a str, &'a str);

/// A, B and C are connected.
const CONNECTED: &str = "C 0 LINKED; E 1 A; E 2 B; E 3 C;";

/// A and C announce the prefix too, and it is decided: B is sent A's route, since A's identifier is the lower one.
const DECIDED: &str = "C 0 LINKED; E 1 A; E 2 B; E 3 C; B 1 UA; B 3 UC; D 0;";

const SENT: &str = "B 2 UA; S 0 3 1 1;";

/// The status of a run of these words, and what was written, where the reads and the writes of these numbers fail.
fn outcome<R: Threads + Sync>(
    rt: &R,
    alloc: Global,
    words: &[&str],
    feed: Vec<u8>,
    fails: (Vec<u64>, Vec<u64>),
) -> Result<(Status, Vec<u8>), AllocError> {
    let (reads, writes) = fails;
    let mut source = MemSource::new(feed, reads);
    let mut sink = MemSink::new(alloc, writes);
    let status = run(rt, alloc, words, &mut source, &mut sink);
    Ok((status, Vec::from_slice(alloc, sink.octets())?))
}

fn replayed<R: Threads + Sync>(
    rt: &R,
    alloc: Global,
    feed: Vec<u8>,
) -> Result<(Status, Vec<u8>), AllocError> {
    let fails = (Vec::new(alloc), Vec::new(alloc));
    outcome(rt, alloc, &["replay"], feed, fails)
}

/// What is written for a feed that goes on to its end.
fn done<R: Threads + Sync>(rt: &R, alloc: Global, feed: Vec<u8>) -> Result<Vec<u8>, Fail> {
    let mut feed = feed;
    text::add(&mut feed, b'Z', 0, &[])?;
    let (status, written) = replayed(rt, alloc, feed)?;
    ends(status, Status::Done, 0)?;
    Ok(written)
}

/// The octets are these.
fn same(found: &[u8], wanted: &[u8]) -> Result<(), Fail> {
    if found != wanted {
        return Err("other octets")?;
    }
    Ok(())
}

/// The status is this one, with its code.
fn ends(status: Status, wanted: Status, code: u8) -> Result<(), Fail> {
    if status != wanted || status.code() != code {
        return Err("another status")?;
    }
    Ok(())
}

/// Each row's feed, with Z after it, is read to its end, and its records are written.
fn check<R: Threads + Sync>(rt: &R, alloc: Global, rows: &[Row]) -> Result<(), Fail> {
    for (shows, fed, wanted) in rows {
        let found = done(rt, alloc, octets_of(alloc, fed)?)?;
        if found.as_slice() != octets_of(alloc, wanted)?.as_slice() {
            return Err(*shows)?;
        }
    }
    Ok(())
}

#[test]
fn other_words_are_no_command(rt: HostRuntime) -> Result<(), Fail> {
    let alloc = rt.alloc();
    let lists: [&[&str]; 6] = [
        &[],
        &["replays"],
        &["trial", "4294967296"],
        &["make", "7", "--threads"],
        &["make", "x"],
        &["--help"],
    ];
    for words in lists {
        let fails = (Vec::new(alloc), Vec::new(alloc));
        let (status, written) = outcome(&rt, alloc, words, octets_of(alloc, DECIDED)?, fails)?;
        ends(status, Status::Usage, 2)?;
        same(&written, &[])?;
    }
    Ok(())
}

#[test]
fn no_octet_after_the_end_is_read(rt: HostRuntime) -> Result<(), Fail> {
    let alloc = rt.alloc();
    let mut feed = octets_of(alloc, "C 0 LINKED; E 1 A; Z 0;")?;
    feed.extend_from_slice(b"more")?;
    let mut source = MemSource::new(feed, Vec::new(alloc));
    let mut sink = MemSink::new(alloc, Vec::new(alloc));
    let status = run(&rt, alloc, &["replay"], &mut source, &mut sink);
    ends(status, Status::Done, 0)?;
    let mut left = [0; 4];
    let count = source.read(&mut left).map_err(|_| "failed")?;
    if count != 4 {
        return Err("not all is left")?;
    }
    same(&left, b"more")
}
