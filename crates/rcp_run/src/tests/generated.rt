//! The commands on a generated feed.

use super::{ends, outcome, same};
use crate::Status;
use std::alloc::Global;
use std::test::Fail;
use std::thread::Threads;

/// The status of these words over an empty source, and what was written, where the writes of these numbers fail.
fn written<R: Threads + Sync>(
    rt: &R,
    alloc: Global,
    words: &[&str],
    fails: &[u64],
) -> Result<(Status, Vec<u8>), Fail> {
    let fails = (Vec::new(alloc), Vec::from_slice(alloc, fails)?);
    Ok(outcome(rt, alloc, words, Vec::new(alloc), fails)?)
}

/// The lines begin so: three more routers are connected before the last one.
const LINES: [&[u8]; 3] = [
    b"routers 400 prefixes 20000 updates ",
    b"routers 400 prefixes 20000 updates ",
    b"routers 397 prefixes 20000 updates ",
];

/// The text has these three lines and no other.
fn has_lines(text: &[u8]) -> Result<(), Fail> {
    let mut rest = text;
    for begins in LINES {
        if !rest.starts_with(begins) {
            return Err("another line")?;
        }
        let end = rest.iter().position(|octet| *octet == b'\n');
        let Some(end) = end else {
            return Err("no line")?;
        };
        let (_, after) = rest.split_at(end + 1);
        rest = after;
    }
    same(rest, &[])
}

#[test]
fn a_trial_prints_its_summaries_whatever_its_threads(rt: HostRuntime) -> Result<(), Fail> {
    let (status, alone) = written(&rt, rt.alloc(), &["trial", "7"], &[])?;
    ends(status, Status::Done, 0)?;
    has_lines(&alone)?;
    let (status, in_threads) = written(&rt, rt.alloc(), &["trial", "--threads", "7"], &[])?;
    ends(status, Status::Done, 0)?;
    same(&in_threads, &alone)
}

#[test]
fn a_feed_that_is_made_stops_at_a_failed_write(rt: HostRuntime) -> Result<(), Fail> {
    let (status, whole) = written(&rt, rt.alloc(), &["make", "7"], &[])?;
    ends(status, Status::Done, 0)?;
    if whole.len() != 408_593 {
        return Err("another length")?;
    }
    let (status, part) = written(&rt, rt.alloc(), &["make", "7"], &[2000])?;
    ends(status, Status::Write, 6)?;
    if part.is_empty() || part.len() >= whole.len() || !whole.starts_with(&part) {
        return Err("no part")?;
    }
    Ok(())
}
