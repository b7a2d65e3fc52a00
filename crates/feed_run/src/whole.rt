//! A feed that is read to its Z, of which nothing is put out.

ghost use Rattle.std.specs.Prelude.{◌≡◌, ℕ, List, Option, Some, IfOk, IfErr, OnOk};
ghost use Rattle.outside.specs.Told.{NeverFalls};
ghost use Rattle.rcp_base.specs.Feed.{FeedState, FeedRecord};
ghost use Rattle.rcp_base.specs.Roster.{RosterOf};
ghost use Rattle.feed_run.specs.Statuses.{StopCause};
ghost use Rattle.feed_run.specs.Going.{HasCounts, IsGoing, ReadsAfter};
ghost use Rattle.feed_run.specs.Whole.{IsReached, IsWhole};

use crate::records::FeedRun;
use feed_format::{Reader, Status};
use outside::Source;
use std::alloc::Global;
use std::thread::Threads;

/// Reads a feed to its Z. `reader` has read `number` records of earlier feeds, whose counts go on. No octet after the Z is
/// read.
///
/// `Feed` and `Roster` where a record or a line of the roster is faulty, `Read` where the source failed.
pub fn read_feed<R: Threads + Sync, S: Source>(
    rt: &R,
    alloc: Global,
    reader: Reader,
    number: u64,
    source: &mut S,
) -> Result<FeedRun, Status>
    requires counts { HasCounts reader }
    requires number { number ≡ reader.number }
    ensures counts { IfOk result (λ feed. HasCounts feed.reader × (feed.number ≡ feed.reader.number)) }
    ensures whole { IfOk result (λ feed. IsWhole reader feed (S.left source.old) (S.left source.new)) }
    ensures ends { IfErr result (λ status. (octets : List ℕ) → S.left source.old ≡ Some octets → ReadsAfter reader status octets (S.left source.new)) }
    ensures cause { IfErr result (λ status. StopCause status (S.faults source.old) (S.faults source.new)) }
    ensures never_falls { NeverFalls (S.faults source.old) (S.faults source.new) }
{
    let mut feed = match FeedRun::begin(alloc, reader, number, source) {
        Ok(feed) => feed,
        Err(status) => return Err(status),
    };
    match read_rest(rt, &mut feed, source) {
        Ok(()) => Ok(feed),
        Err(status) => Err(status),
    }
}

/// Reads the records of a feed that are left, up to its Z.
fn read_rest<R: Threads + Sync, S: Source>(
    rt: &R,
    feed: &mut FeedRun,
    source: &mut S,
) -> Result<(), Status>
    requires { IsGoing feed.old }
    ensures counts { OnOk result (HasCounts feed.new.reader × (feed.new.number ≡ feed.new.reader.number)) }
    ensures whole { OnOk result ((earlier : FeedState) (roster : RosterOf) (items : List FeedRecord) (before : Option (List ℕ))
        → IsReached earlier feed.old roster items before (S.left source.old) → IsWhole earlier feed.new before (S.left source.new)) }
    ensures ends { IfErr result (λ status. (earlier : FeedState) (roster : RosterOf) (items : List FeedRecord) (octets : List ℕ)
        → IsReached earlier feed.old roster items (Some octets) (S.left source.old) → ReadsAfter earlier status octets (S.left source.new)) }
    ensures cause { IfErr result (λ status. StopCause status (S.faults source.old) (S.faults source.new)) }
    ensures never_falls { NeverFalls (S.faults source.old) (S.faults source.new) }
{
    'records: loop {
        match feed.next(rt, false, source) {
            Ok(Some(_)) => (),
            Ok(None) => return Ok(()),
            Err(status) => return Err(status),
        }
    }
}
