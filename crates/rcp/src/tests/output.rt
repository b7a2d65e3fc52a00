//! Output that goes out in short writes, and a last flush that fails.

use crate::steps::run_words;
use rcp_run::Status;
use standard_streams::{ReaderSource, WriterSink};
use std::alloc::{AllocError, Global};
use std::io;
use std::io::{ErrorKind, Write};
use std::test::Fail;
use std::thread::Threads;

/// A roster of two routers, a connection that one of them opens, and the end.
const FEED: &[u8] = b"C\0\0\0\0\0\0\0\x81as 65000\nid 10.0.0.254\nshards 2\nhold 90\narea 0.0.0.0\n\
router 10.0.0.1 10.0.0.1\nrouter 10.0.0.2 10.0.0.2\nlink 10.0.0.1 10.0.0.2 10\n\
U\0\0\0\x01\0\0\0\0Z\0\0\0\0\0\0\0\0";

/// What is written for it: the platform's OPEN.
const WRITTEN: &[u8] =
    b"B\0\0\0\x01\0\0\0\x1d\xff\xff\xff\xff\xff\xff\xff\xff\xff\xff\xff\xff\xff\xff\xff\xff\
\0\x1d\x01\x04\xfd\xe8\0\x5a\x0a\0\0\xfe\0";

/// A writer that takes at most so many octets at once, and whose flush works or fails.
#[derive(Drop)]
struct Narrow<'a> {
    octets: &'a mut Vec<u8>,
    most: usize,
    flushes: bool,
}

impl Write for Narrow<'_> {
    fn write(&mut self, piece: &[u8]) -> io::Result<usize> {
        let count = piece.len().min(self.most);
        let (front, _) = piece.split_at(count);
        self.octets.extend_from_slice(front)?;
        Ok(count)
    }

    fn flush(&mut self) -> io::Result<()> {
        if self.flushes {
            return Ok(());
        }
        Err(io::Error::from(ErrorKind::Other))
    }
}

/// What the writer does: how many octets it takes at once, and whether its flush works.
type Does = (usize, bool);

fn owned(alloc: Global, words: &[&str]) -> Result<Vec<String>, AllocError> {
    let mut owned = Vec::new(alloc);
    for word in words {
        owned.push(String::from_str(alloc, word)?)?;
    }
    Ok(owned)
}

/// The status of the words over the feed, and what was written.
fn outcome<R: Threads + Sync>(
    rt: &R,
    alloc: Global,
    words: &[&str],
    feed: &[u8],
    does: Does,
) -> Result<(Status, Vec<u8>), AllocError> {
    let (most, flushes) = does;
    let words = owned(alloc, words)?;
    let mut octets = Vec::new(alloc);
    let mut source = ReaderSource::new(feed);
    let mut sink = WriterSink::new(Narrow {
        octets: &mut octets,
        most,
        flushes,
    });
    let status = run_words(rt, alloc, &words, &mut source, &mut sink);
    Ok((status, octets))
}

/// Whether a run ended with this status after these octets.
fn is(found: &(Status, Vec<u8>), status: Status, octets: &[u8]) -> bool {
    found.0 == status && found.1.as_slice() == octets
}

#[test]
fn output_goes_out_in_short_writes(rt: HostRuntime) -> Result<(), Fail> {
    for most in [1, 7, 1000] {
        let found = outcome(&rt, rt.alloc(), &["replay"], FEED, (most, true))?;
        assert!(rt; is(&found, Status::Done, WRITTEN));
    }
    Ok(())
}

#[test]
fn a_writer_that_takes_nothing_is_a_write_fault(rt: HostRuntime) -> Result<(), Fail> {
    let found = outcome(&rt, rt.alloc(), &["replay"], FEED, (0, true))?;
    assert!(rt; is(&found, Status::Write, b""));
    Ok(())
}

/// A flush that fails loses output that was due before. Other words stand.
#[test]
fn a_failed_flush_is_a_write_fault(rt: HostRuntime) -> Result<(), Fail> {
    let rows: [(&[&str], &[u8], usize, Status, &[u8]); 5] = [
        (&["replay"], FEED, 1000, Status::Write, WRITTEN),
        (&["replay"], b"", 1000, Status::Write, b""),
        (
            &["replay"],
            b"C\0\0\0\0\0\0\0\x03foo",
            1000,
            Status::Write,
            b"",
        ),
        (&["replay"], FEED, 0, Status::Write, b""),
        (&["replay", "it"], FEED, 1000, Status::Usage, b""),
    ];
    for (words, feed, most, status, octets) in rows {
        let found = outcome(&rt, rt.alloc(), words, feed, (most, false))?;
        assert!(rt; is(&found, status, octets));
    }
    Ok(())
}
