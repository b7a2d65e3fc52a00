//! A feed that is read record by record, and the platform that its records act on.

ghost use Rattle.std.specs.Prelude.{◌≡◌, ◌^◌, ◌<◌, ◌≤◌, ℕ, List, All, length, true, Some, Option, IfOk, IfErr, IfSome, IfNone, OnOk, None};
ghost use Rattle.std.specs.List.{AllByRecursion};
ghost use Rattle.outside.specs.Told.{NeverFalls};
ghost use Rattle.rcp_base.specs.Feed.{is_finish, has_length, begins, is_time, moment_of};
ghost use Rattle.feed_meaning.specs.Platform.{Platform as Defined};
ghost use Rattle.feed_meaning.specs.Runs.{act};
ghost use Rattle.platform_laws.specs.Platforms.{IsSeen};
ghost use Rattle.platform_core.specs.Outputs.{AreFramed};
ghost use Rattle.feed_run.specs.Statuses.{status_of, status_of_roster, StopCause};
ghost use Rattle.feed_run.specs.Going.{AnswersAfter, HasCounts, IsGoing, Opens, Acts, Finishes, Ends};
ghost use Rattle.feed_format.specs.declared.status.Status.TheVariants.{Done};

use feed_format::{FeedRefusal, Kind, Out, Reader, Record, Status};
use outside::Source;
use platform_core::Platform;
use rcp_base::NoMemory;
use roster::RosterRefusal;
use std::alloc::Global;
use std::thread::Threads;

/// A feed whose roster was read: more records follow, or it has come to its Z.
#[derive(Drop)]
pub struct FeedRun {
    /// What is kept of the records that were read.
    pub reader: Reader,
    /// The platform after them.
    pub platform: Platform,
    /// How many records were read, those of earlier feeds included.
    pub number: u64,
}

impl FeedRun {
    /// Reads the first record of the next feed, the roster, and makes the platform for it. `reader` has read `number` records of
    /// earlier feeds, whose counts go on.
    ///
    /// `Feed` and `Roster` where the record or a line of it is faulty, `Read` where the source failed.
    pub fn begin<S: Source>(
        alloc: Global,
        mut reader: Reader,
        number: u64,
        source: &mut S,
    ) -> Result<FeedRun, Status>
        requires counts { HasCounts reader }
        requires number { number ≡ reader.number }
        ensures going { IfOk result IsGoing }
        ensures opened { IfOk result (λ run. Opens reader run (S.left source.old) (S.left source.new)) }
        ensures ends { IfErr result (λ status. (octets : List ℕ) (taken : Option (List ℕ)) → S.left source.old ≡ Some octets
            → AnswersAfter reader status octets (S.left source.new) taken taken) }
        ensures cause { IfErr result (λ status. StopCause status (S.faults source.old) (S.faults source.new)) }
        ensures never_falls { NeverFalls (S.faults source.old) (S.faults source.new) }
    {
        reader.restart();
        let first = match reader.next(source) {
            Ok(first) => first,
            Err(refused) => return Err(status_of(refused)),
        };
        let roster = match roster::read(alloc, &first.body) {
            Ok(roster) => roster,
            Err(refused) => return Err(status_of_roster(number + 1, refused)),
        };
        // A roster has a shard: it is known once the number is read.
        prove!(roster.shards() >= 1);
        match Platform::new(alloc, roster) {
            Ok(platform) => Ok(FeedRun {
                reader,
                platform,
                number: number + 1,
            }),
            Err(_) => Err(Status::NoMemory),
        }
    }

    /// Reads the next record, and has the platform act on it. Returns what is put out for it, or None where it is the feed's Z.
    ///
    /// With `threads` the shards are worked side by side at a D. Whatever `threads` is, what is put out is the same.
    ///
    /// `Feed` where the record is faulty, `Read` where the source failed. No record follows then.
    pub fn next<R: Threads + Sync, S: Source>(
        &mut self,
        rt: &R,
        threads: bool,
        source: &mut S,
    ) -> Result<Option<Vec<Out>>, Status>
        requires { IsGoing self.old }
        ensures going { IfOk result (λ found. IfSome found (λ outs. IsGoing self.new)) }
        ensures further { IfOk result (λ found. IfSome found (λ outs. self.old.reader.octets < self.new.reader.octets)) }
        ensures acts { IfOk result (λ found. IfSome found (λ outs. Acts self.old self.new outs.items (S.left source.old) (S.left source.new))) }
        ensures short { IfOk result (λ found. IfSome found (λ outs. All (λ out. length out.body < 2 ^ 32) outs.items)) }
        ensures done { IfOk result (λ found. IfNone found (Ends self.old Done (S.left source.old) (S.left source.new))) }
        ensures finishes { IfOk result (λ found. IfNone found (Finishes self.old self.new (S.left source.old) (S.left source.new))) }
        ensures counts { IfOk result (λ found. HasCounts self.new.reader × (self.new.number ≡ self.new.reader.number)) }
        ensures ends { IfErr result (λ status. Ends self.old status (S.left source.old) (S.left source.new)) }
        ensures cause { IfErr result (λ status. StopCause status (S.faults source.old) (S.faults source.new)) }
        ensures never_falls { NeverFalls (S.faults source.old) (S.faults source.new) }
    {
        let item = match self.reader.next(source) {
            Ok(item) => item,
            Err(refused) => return Err(status_of(refused)),
        };
        self.number += 1;
        if let Some(why) = self.platform.check(&item) {
            return Err(Status::Feed {
                number: self.number,
                why,
            });
        }
        if is_finish(item.kind) {
            return Ok(None);
        }
        match act_on(rt, threads, &mut self.platform, &item) {
            Ok(outs) => Ok(Some(outs)),
            Err(_) => Err(Status::NoMemory),
        }
    }
}

/// Has the platform act on a record, and returns what is put out for it.
fn act_on<R: Threads + Sync>(
    rt: &R,
    threads: bool,
    platform: &mut Platform,
    item: &Record,
) -> Result<Vec<Out>, NoMemory>
    requires body { has_length item.now.kind (length item.now.body) ≡ true }
    requires number { begins item.now.kind ≡ true → AllByRecursion (λ entry. entry.0 < item.now.source) platform.old.seen.sessions }
    requires time { is_time item.now.kind ≡ true → platform.old.seen.time ≤ moment_of item.now.body }
    ensures after { OnOk result ((defined : Defined) → IsSeen defined platform.old.seen → IsSeen (act defined item.now).after platform.new.seen) }
    ensures output { IfOk result (λ out. (defined : Defined) → IsSeen defined platform.old.seen → out.items ≡ (act defined item.now).out) }
    ensures framed { IfOk result (λ out. AreFramed out.items) }
{
    match item.kind {
        Kind::Drain => platform.drain_all(rt, threads),
        _ => platform.step(item),
    }
}

fn is_finish(kind: Kind) -> bool
    ensures { result ≡ is_finish kind }
{
    matches!(kind, Kind::Finish)
}

/// The status of a run whose next record isn't given.
fn status_of(refused: FeedRefusal) -> Status
    ensures { result ≡ status_of refused }
{
    match refused {
        FeedRefusal::Feed { number, why } => Status::Feed { number, why },
        FeedRefusal::Read => Status::Read,
        FeedRefusal::NoMemory => Status::NoMemory,
    }
}

/// The status of a run whose record of this number, the first of a feed, holds no roster.
fn status_of_roster(number: u64, refused: RosterRefusal) -> Status
    ensures { result ≡ status_of_roster number refused }
{
    match refused {
        RosterRefusal::Fault { line, why } => Status::Roster { number, line, why },
        RosterRefusal::NoMemory => Status::NoMemory,
    }
}
