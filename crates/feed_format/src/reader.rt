//! Taking the records of a feed from a source.

ghost use Rattle.std.specs.Prelude.{◌≡◌, ℕ, ◌+◌, ◌^◌, ◌<◌, ◌≤◌, false, true, List, length, Option, Some, None, Ok, Err, IfOk, IfErr, OnOk, OnErr, IfSome, ◌↔◌, IsTrue, nat_le, nat_lt, ◌==◌, ◌&&◌, not, filter, if◌then◌else◌};
ghost use Rattle.outside.specs.Told.{Rose, NeverFalls, in_front};
ghost use Rattle.std.specs.Result.{result_err};
ghost use Rattle.rcp_base.specs.Checks.{first_failing, unless};
ghost use Rattle.rcp_base.specs.Feed.{FeedState, before_feeds, before_next_feed, after, kind_of, has_length, is_of_connection, begins, is_time, moment_of, live_after, IsRecord, record_octets, fault_of, header_checks, body_checks, frame_checks};
ghost use Rattle.feed_format.specs.Reading.{IsRefusal};
ghost use Rattle.rcp_base.specs.declared.kinds.FeedWhy.TheVariants as why;

use crate::record::{Record, has_length};
use crate::taking::{Stop, read_body, read_exactly};
use outside::Source;
use rcp_base::{FeedWhy, Kind, NoMemory};
use std::alloc::{AllocError, AllocFailed, Global};
use std::marker::Model;
use thiserror::Error;

/// Why no record was taken.
#[derive(Clone, Copy, Debug, PartialEq, Eq, Error)]
pub enum FeedRefusal {
    /// The record of this number, from 1 over all feeds, isn't one of the feed.
    #[error("record {number}: {why}")]
    Feed { number: u64, why: FeedWhy },
    /// The source failed.
    #[error("read fault")]
    Read,
    /// No memory was found.
    #[error("no memory")]
    NoMemory,
}

/// What is kept of the records before.
#[derive(Debug, Drop)]
pub struct Reader {
    alloc: Global,
    number: u64,
    octets: u64,
    started: bool,
    last: u32,
    live: Vec<u32>,
    moment: u64,
    closed: bool,
}

impl Model for Reader {
    ghost use Rattle.std.specs.Prelude.{◌+◌, ◌*◌, ◌^◌, ◌≤◌};
    ghost use Rattle.rcp_base.specs.Feed.{FeedState};

    ghost Value = { FeedState };

    ghost view = { λ r. record { number = r.number; octets = r.octets; started = r.started; last = r.last; live = r.live.items; moment = r.moment; closed = r.closed } };

    ghost invariant = { λ r. (9 * r.number ≤ r.octets) × (r.octets ≤ 2 ^ 40 + 65544) };
}

/// The most octets that a body has.
const MOST_BODY: u32 = 65536;

/// The records before have fewer octets.
const MOST_OCTETS: u64 = 1 << 40;

/// Connections that may be open at once.
const MOST_LIVE: usize = 4096;

/// What the nine octets before a body say.
#[derive(Clone, Copy)]
struct Header {
    kind: Kind,
    source: u32,
    len: u32,
}

impl Reader {
    ghost use Rattle.feed_format.specs.Reading.{Takes, TakesPart, TakesLess, Gives, AtBody, WantsMemory};

    /// Before the first record of the first feed.
    pub fn new(alloc: Global) -> Reader
        ensures { result ≡ before_feeds }
    {
        Reader {
            alloc,
            number: 0,
            octets: 0,
            started: false,
            last: 0,
            live: Vec::new(alloc),
            moment: 0,
            closed: false,
        }
    }

    /// Before the first record of a further feed. The numbers of records and the count of octets go on.
    pub fn restart(&mut self)
        ensures { self.new ≡ before_next_feed self.old }
    {
        self.started = false;
        self.last = 0;
        self.live.clear();
        self.moment = 0;
        self.closed = false;
    }

    /// The next record of the feed, or why there is none. All faults of a feed come from here, but for those that a
    /// roster says. Nothing after the record is taken.
    pub fn next<S: Source>(&mut self, source: &mut S) -> Result<Record, FeedRefusal>
        requires { self.old.closed ≡ false }

        // A record is valid after those before, and stood in front of what is left.
        ensures record { IfOk result (λ item. IsRecord item × (fault_of self.old item ≡ None)) }
        ensures octets { IfOk result (λ item. S.left source.old ≡ in_front (record_octets item) (S.left source.new)) }
        ensures after { IfOk result (λ item. self.new ≡ after self.old item) }

        // Where the octets are known, it is the record in front of them, and a fault is their first.
        ensures told { IfSome (S.left source.old) (λ octets. Gives self.old octets (S.left source.new) result) }
        ensures too_long { (result ≡ Err (FeedRefusal.Feed (self.old.number + 1) why.TooLong)) ↔ (2 ^ 40 ≤ self.old.octets) }
        ensures read { result ≡ Err FeedRefusal.Read → Rose (S.faults source.old) (S.faults source.new) }
        ensures never_falls { NeverFalls (S.faults source.old) (S.faults source.new) }

        // Memory is wanted only after a faultless header: for its body, or for a connection that the whole record begins.
        ensures no_memory { result ≡ Err FeedRefusal.NoMemory → WantsMemory self.old (S.left source.old) (S.left source.new) }

        // A refusal ends the feed. It took no more than the record in front. Where a read failed, what was taken has no
        // fault but that it is cut.
        ensures closed { OnErr result (self.new ≡ record self.old { closed = true }) }
        ensures part { OnErr result (TakesPart (S.left source.old) (S.left source.new)) }
        ensures less { result ≡ Err FeedRefusal.Read → TakesLess self.old (S.left source.old) (S.left source.new) }
    {
        match self.advance(source) {
            Ok(item) => Ok(item),
            Err(stop) => {
                let number = self.number + 1;
                self.closed = true;
                Err(refusal(number, stop))
            }
        }
    }

    /// Takes the next record and notes it. Where there is none, nothing is noted.
    fn advance<S: Source>(&mut self, source: &mut S) -> Result<Record, Stop>
        requires { self.old.closed ≡ false }
        ensures takes { Takes self.old (S.left source.old) (S.left source.new) result }
        ensures after { IfOk result (λ item. self.new ≡ after self.old item) }
        ensures err { OnErr result (self.new ≡ self.old) }
        ensures too_long { (result ≡ Err (Stop.Fault why.TooLong)) ↔ (2 ^ 40 ≤ self.old.octets) }
        ensures read { result ≡ Err Stop.Read → Rose (S.faults source.old) (S.faults source.new) }
        ensures no_memory { result ≡ Err Stop.NoMemory → WantsMemory self.old (S.left source.old) (S.left source.new) }
        ensures never_falls { NeverFalls (S.faults source.old) (S.faults source.new) }
    {
        let item = self.take(source)?;
        self.note(&item)?;
        Ok(item)
    }

    /// Notes a record as the latest of those before.
    fn note(&mut self, item: &Record) -> Result<(), NoMemory>
        requires form { IsRecord item.now }
        requires lawful { fault_of self.old item.now ≡ None }
        ensures ok { OnOk result (self.new ≡ after self.old item.now) }
        ensures err { OnErr result (self.new ≡ self.old) }
        ensures begins { OnErr result (IsTrue (begins item.now.kind)) }
    {
        let last = self.last_after(item);
        let moment = self.moment_after(item);
        keep_live(&mut self.live, item)?;
        self.number += 1;
        self.octets += 9 + item.body.len() as u64;
        self.started = true;
        self.last = last;
        self.moment = moment;
        self.closed = item.kind == Kind::Finish;
        Ok(())
    }

    fn last_after(&self, item: &Record) -> u32
        ensures { result ≡ (if begins item.now.kind then item.now.source else self.now.last) }
    {
        if begins(item.kind) {
            item.source
        } else {
            self.last
        }
    }

    fn moment_after(&self, item: &Record) -> u64
        requires { IsTrue (has_length item.now.kind (length item.now.body)) }
        ensures { result ≡ (if is_time item.now.kind then moment_of item.now.body else self.now.moment) }
    {
        match item.kind {
            Kind::Time => moment_of(&item.body),
            _ => self.moment,
        }
    }

    /// The record in front, where it is valid after those before. Nothing after it is taken.
    fn take<S: Source>(&self, source: &mut S) -> Result<Record, Stop>
        ensures takes { Takes self.now (S.left source.old) (S.left source.new) result }
        ensures too_long { (result ≡ Err (Stop.Fault why.TooLong)) ↔ (2 ^ 40 ≤ self.now.octets) }
        ensures read { result ≡ Err Stop.Read → Rose (S.faults source.old) (S.faults source.new) }
        ensures no_memory { result ≡ Err Stop.NoMemory → AtBody self.now (S.left source.old) (S.left source.new) }
        ensures never_falls { NeverFalls (S.faults source.old) (S.faults source.new) }
    {
        if self.octets >= MOST_OCTETS {
            return Err(Stop::Fault(FeedWhy::TooLong));
        }
        let mut octets = [0; 9];
        read_exactly(source, &mut octets)?;
        let header = self.header(&octets)?;
        let body = read_body(self.alloc, source, header.len as usize)?;
        let item = Record {
            kind: header.kind,
            source: header.source,
            body,
        };
        self.judge_body(&item)?;
        Ok(item)
    }

    ghost use Rattle.feed_format.specs.HeaderOf.{IsHeader};

    /// The header of nine octets, or its first fault.
    fn header(&self, octets: &[u8; 9]) -> Result<Header, FeedWhy>
        ensures fault { result_err result ≡ first_failing (frame_checks self.now octets.now) }
        ensures value { IfOk result (λ header. IsHeader header octets.now) }
    {
        let [letter, s0, s1, s2, s3, l0, l1, l2, l3] = *octets;
        let kind = kind_of(letter).ok_or(FeedWhy::Kind)?;
        let len = u32::from_be_bytes([l0, l1, l2, l3]);
        self.judge_header(kind, len)?;
        let source = u32::from_be_bytes([s0, s1, s2, s3]);
        Ok(Header { kind, source, len })
    }

    fn judge_header(&self, kind: Kind, len: u32) -> Result<(), FeedWhy>
        ensures { result ≡ unless (first_failing (header_checks self.now kind len)) tt }
    {
        if !self.started && kind != Kind::Roster {
            return Err(FeedWhy::NoRoster);
        }
        if self.started && kind == Kind::Roster {
            return Err(FeedWhy::Twice);
        }
        if len > MOST_BODY || !has_length(kind, len as usize) {
            return Err(FeedWhy::Length);
        }
        Ok(())
    }

    fn judge_body(&self, item: &Record) -> Result<(), FeedWhy>
        requires { IsTrue (has_length item.now.kind (length item.now.body)) }
        ensures { result ≡ unless (first_failing (body_checks self.now item.now)) tt }
    {
        if has_wrong_source(item) {
            return Err(FeedWhy::BadBody);
        }
        if self.begins_again(item) {
            return Err(FeedWhy::Twice);
        }
        if self.begins_too_many(item) {
            return Err(FeedWhy::TooMany);
        }
        if self.goes_back(item) {
            return Err(FeedWhy::ClockBack);
        }
        Ok(())
    }

    fn begins_again(&self, item: &Record) -> bool
        ensures { result ≡ (begins item.now.kind && nat_le item.now.source self.now.last) }
    {
        begins(item.kind) && item.source <= self.last
    }

    fn begins_too_many(&self, item: &Record) -> bool
        ensures { result ≡ (begins item.now.kind && nat_le 4096 (length self.now.live)) }
    {
        begins(item.kind) && self.live.len() >= MOST_LIVE
    }

    fn goes_back(&self, item: &Record) -> bool
        requires { IsTrue (has_length item.now.kind (length item.now.body)) }
        ensures { result ≡ (is_time item.now.kind && nat_lt (moment_of item.now.body) self.now.moment) }
    {
        match item.kind {
            Kind::Time => moment_of(&item.body) < self.moment,
            _ => false,
        }
    }
}

fn refusal(number: u64, stop: Stop) -> FeedRefusal
    ensures { IsRefusal number stop result }
{
    match stop {
        Stop::Fault(why) => FeedRefusal::Feed { number, why },
        Stop::Read => FeedRefusal::Read,
        Stop::NoMemory => FeedRefusal::NoMemory,
    }
}

/// The connections that are open after a record.
fn keep_live(live: &mut Vec<u32>, item: &Record) -> Result<(), NoMemory>
    ensures ok { OnOk result (live.new.items ≡ live_after live.old.items item.now) }
    ensures err { OnErr result (live.new.items ≡ live.old.items) }
    ensures begins { OnErr result (IsTrue (begins item.now.kind)) }
{
    match item.kind {
        Kind::Ready | Kind::Raw => {
            live.push(item.source)?;
            Ok(())
        }
        Kind::Closed => {
            remove(live, item.source);
            Ok(())
        }
        _ => Ok(()),
    }
}

fn remove(live: &mut Vec<u32>, number: u32)
    ensures { live.new.items ≡ filter (λ connection. not (connection == number)) live.old.items }
{
    live.retain(|connection| *connection != number);
}

fn has_wrong_source(item: &Record) -> bool
    ensures { result ≡ (if is_of_connection item.now.kind then item.now.source == 0 else not (item.now.source == 0)) }
{
    if is_of_connection(item.kind) {
        item.source == 0
    } else {
        item.source != 0
    }
}

/// The kind of a letter.
#[tactic(auto, unfolding(rcp_base::specs::Feed::kind_of))]
fn kind_of(letter: u8) -> Option<Kind>
    ensures { result ≡ kind_of letter }
{
    match letter {
        b'C' => Some(Kind::Roster),
        b'E' => Some(Kind::Ready),
        b'U' => Some(Kind::Raw),
        b'B' => Some(Kind::Octets),
        b'X' => Some(Kind::Closed),
        b'L' => Some(Kind::Links),
        b'T' => Some(Kind::Time),
        b'W' => Some(Kind::Slice),
        b'D' => Some(Kind::Drain),
        b'Z' => Some(Kind::Finish),
        _ => None,
    }
}

fn is_of_connection(kind: Kind) -> bool
    ensures { result ≡ is_of_connection kind }
{
    matches!(kind, Kind::Ready | Kind::Raw | Kind::Octets | Kind::Closed)
}

fn begins(kind: Kind) -> bool
    ensures { result ≡ begins kind }
{
    matches!(kind, Kind::Ready | Kind::Raw)
}

/// The seconds of a time record.
fn moment_of(body: &[u8]) -> u64
    requires { length body.now ≡ 8 }
    ensures { result ≡ moment_of body.now }
{
    u64::from_be_bytes([
        body[0], body[1], body[2], body[3], body[4], body[5], body[6], body[7],
    ])
}

#[cfg(test)]
mod tests;
