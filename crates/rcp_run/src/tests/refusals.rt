//! Reads and writes that fail, one after another, and feeds that are cut.

ghost use Rattle.std.specs.Prelude.{◌<◌};

use super::text::octets_of;
use super::{DECIDED, ends, outcome, replayed, same};
use crate::{FeedWhy, Status, run};
use outside::{MemSink, MemSource};
use std::alloc::Global;
use std::test::Fail;
use std::thread::Threads;

/// A feed with link state and work, after which three records were put out.
const FEED: &str =
    "C 0 BARE; E 1 A; E 2 B; E 3 C; L 0 PACKET_148_3 LSA_A LSA_B LSA_C; B 1 UA; B 3 UC; D 0; \
                    L 0 PACKET_112_2 LSA_A_NEWER LSA_B_NEWER; W 0 0001 00000001; Z 0;";

const WRITTEN: &str = "B 2 UA; S 0 3 1 1; B 2 UC;";

/// The status of the feed over a source whose reads give at most so many octets, and what was written.
fn piecewise<R: Threads + Sync>(
    rt: &R,
    alloc: Global,
    most: usize,
    fails: (&[u64], &[u64]),
) -> Result<(Status, Vec<u8>), Fail>
    requires { 0 < most }
{
    let (reads, writes) = fails;
    let reads = Vec::from_slice(alloc, reads)?;
    let writes = Vec::from_slice(alloc, writes)?;
    let mut source = MemSource::with_most(octets_of(alloc, FEED)?, reads, most);
    let mut sink = MemSink::new(alloc, writes);
    let status = run(rt, alloc, &["replay"], &mut source, &mut sink);
    Ok((status, Vec::from_slice(alloc, sink.octets())?))
}

#[test]
fn octets_come_in_any_reads(rt: HostRuntime) -> Result<(), Fail> {
    let alloc = rt.alloc();
    let wanted = octets_of(alloc, WRITTEN)?;
    for most in [1, 8] {
        let (status, written) = piecewise(&rt, alloc, most, (&[], &[]))?;
        ends(status, Status::Done, 0)?;
        same(&written, &wanted)?;
    }
    Ok(())
}

/// Each of the first 40 reads fails in turn, which come before the first output.
#[test]
fn a_failed_read_ends_the_run(rt: HostRuntime) -> Result<(), Fail> {
    let alloc = rt.alloc();
    for number in 1..=40 {
        let (status, written) = piecewise(&rt, alloc, 8, (&[number], &[]))?;
        ends(status, Status::Read, 5)?;
        same(&written, &[])?;
    }
    Ok(())
}

/// The writes by number, with how many octets were written before.
const WRITES: [(u64, usize); 6] = [(1, 0), (2, 9), (3, 61), (4, 70), (5, 94), (6, 103)];

/// Each write fails in turn: what was written before stays, and nothing follows.
#[test]
fn a_failed_write_ends_the_run(rt: HostRuntime) -> Result<(), Fail> {
    let alloc = rt.alloc();
    let wanted = octets_of(alloc, WRITTEN)?;
    for (number, length) in WRITES {
        let (status, written) = piecewise(&rt, alloc, 8, (&[], &[number]))?;
        ends(status, Status::Write, 6)?;
        same(&written, wanted.get(..length).ok_or("short")?)?;
    }
    let (status, _) = piecewise(&rt, alloc, 8, (&[], &[7]))?;
    ends(status, Status::Done, 0)
}

/// The length of the feed, and where each of its first records ends.
const LENGTH: usize = 609;

const ENDS: [usize; 4] = [137, 150, 163, 176];

/// The feed is cut after each of its first 200 octets: the record after the whole ones is cut.
#[test]
fn a_feed_that_is_cut_is_truncated(rt: HostRuntime) -> Result<(), Fail> {
    let alloc = rt.alloc();
    let feed = octets_of(alloc, FEED)?;
    if feed.len() != LENGTH {
        return Err("another feed")?;
    }
    for length in 0..=200 {
        let front = Vec::from_slice(alloc, feed.get(..length).ok_or("short")?)?;
        let (status, written) = replayed(&rt, alloc, front)?;
        let whole = ENDS.iter().filter(|end| **end <= length).count() as u64;
        let number = whole.saturating_add(1);
        let why = FeedWhy::Truncated;
        ends(status, Status::Feed { number, why }, 3)?;
        same(&written, &[])?;
    }
    Ok(())
}

/// A second read that fails, and a first write, where a read gives as much as is asked for.
#[test]
fn read_and_write_faults_have_their_codes(rt: HostRuntime) -> Result<(), Fail> {
    let alloc = rt.alloc();
    let rows: [(&[u64], &[u64], Status, u8); 2] = [
        (&[2], &[], Status::Read, 5),
        (&[], &[1], Status::Write, 6),
    ];
    for (reads, writes, wanted, code) in rows {
        let fails = (
            Vec::from_slice(alloc, reads)?,
            Vec::from_slice(alloc, writes)?,
        );
        let (status, written) = outcome(
            &rt,
            alloc,
            &["replay"],
            octets_of(alloc, DECIDED)?,
            fails,
        )?;
        ends(status, wanted, code)?;
        same(&written, &[])?;
    }
    Ok(())
}
