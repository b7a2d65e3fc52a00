//! The platform between two records.

ghost use Rattle.std.specs.Prelude.{◌≡◌, ◌≤◌, ◌<◌, ◌^◌, true, false, length, All, IfOk, OnOk, OnErr, Ok, Err, Some};
ghost use Rattle.std.specs.List.{AllByRecursion};
ghost use Rattle.rcp_base.specs.Feed.{FeedRecord, has_length, begins, is_time, moment_of};
ghost use Rattle.rcp_base.specs.declared.kinds.Kind.TheVariants as kind;
ghost use Rattle.rcp_base.specs.Octets.{AreOctets};
ghost use Rattle.feed_meaning.specs.Platform.{Platform as Defined};
ghost use Rattle.feed_meaning.specs.Runs.{act};
ghost use Rattle.feed_meaning.specs.WholeFeeds.{kind_fault, roster_fault};
ghost use Rattle.platform_laws.specs.Platforms.{IsSeen};
ghost use Rattle.platform_laws.specs.Records.{new_platform};
ghost use Rattle.platform_core.specs.Outputs.{AreFramed};
ghost use Rattle.platform_core.specs.States.{IsNextGiven, pending_number, Steps, is_of_sessions, drained, drained_output, drain_record};

use crate::carrying::carry_out_all;
use crate::connections::Connections;
use crate::links::LinkView;
use crate::output::Outputs;
use crate::sessions::{read_time, slot_named};
use crate::work::{read_slice, work_all, work_slice};
use feed_format::{FeedWhy, Kind, Out, Record};
use rcp_base::{NoMemory, Prefix, Slot};
use rcs_shards::{InThreads, InTurn, Shards, Workers};
use roster::Roster;
use std::alloc::Global;
use std::marker::Model;
use std::thread::Threads;

/// The platform between two records. Contracts see what can be asked of it, and whether it is spent.
#[derive(Drop)]
pub struct Platform {
    alloc: Global,
    pub(crate) shards: Shards,
    pub(crate) connections: Connections,
    /// The latest time, in seconds.
    pub(crate) time: u64,
    links: LinkView,
    /// How many UPDATEs were put out: it saturates.
    updates: u64,
    is_spent: bool,
}

impl Model for Platform {
    ghost use Rattle.platform_core.specs.States.{StateOf, state_code};

    ghost Value = { StateOf };

    ghost coded = { state_code };

    ghost use Rattle.platform_core.specs.Following.{seen_of};
    ghost use Rattle.platform_core.specs.Joins.{IsJoined};

    ghost view = { λ p. record { seen = seen_of p.shards p.connections.sessions p.time p.links p.updates; spent = p.is_spent } };

    ghost invariant = { λ p. IsJoined p.is_spent p.shards p.connections p.time p.links };
}

impl Platform {
    /// The platform of a roster to which nothing happened. `NoMemory` where there was no room for its view, its seats and its shards.
    pub fn new(alloc: Global, roster: Roster) -> Result<Platform, NoMemory>
        ensures { IfOk result (λ platform. platform ≡ record { seen = new_platform roster; spent = false }) }
    {
        let links = LinkView::new(alloc, &roster)?;
        let view = links.view()?;
        let connections = Connections::new(alloc, roster.len())?;
        Ok(Platform {
            alloc,
            shards: Shards::new(alloc, roster, view)?,
            connections,
            time: 0,
            links,
            updates: 0,
            is_spent: false,
        })
    }

    /// The roster.
    pub fn roster(&self) -> &Roster
        ensures { result.now ≡ self.now.seen.roster }
    {
        self.shards.roster()
    }

    /// Why a record of a feed isn't one for this roster, if so: `UnknownRouter` exactly for an E whose router isn't in the roster, and `BadShard`
    /// exactly for a W whose shard isn't below the roster's. The body has the length of its kind.
    pub fn check(&self, item: &Record) -> Option<FeedWhy>
        requires { has_length item.now.kind (length item.now.body) ≡ true }
        ensures { result ≡ roster_fault self.now.seen.roster item.now }
    {
        fault_for(self.shards.roster(), item.kind, &item.body)
    }

    /// Acts on a record, and answers what is put out for it.
    ///
    /// The body has the length of its kind, a connection that is opened has a number above those of the open ones, and time doesn't go
    /// back. `NoMemory` where there was no room, which spends the platform, and where it was spent. Nothing is put out then.
    pub fn step(&mut self, item: &Record) -> Result<Vec<Out>, NoMemory>
        requires body { has_length item.now.kind (length item.now.body) ≡ true }
        requires number { begins item.now.kind ≡ true → AllByRecursion (λ entry. entry.0 < item.now.source) self.old.seen.sessions }
        requires time { is_time item.now.kind ≡ true → self.old.seen.time ≤ moment_of item.now.body }
        ensures after { OnOk result ((platform : Defined) → IsSeen platform self.old.seen → IsSeen (act platform item.now).after self.new.seen) }
        ensures output { IfOk result (λ out. (platform : Defined) → IsSeen platform self.old.seen → out.items ≡ (act platform item.now).out) }
        ensures steps { IfOk result (λ out. Steps self.old.seen self.new.seen item.now out.items) }
        ensures framed { IfOk result (λ out. AreFramed out.items) }
        ensures fresh { OnOk result ((self.old.spent ≡ false) × (self.new.spent ≡ false)) }
        ensures spent { OnErr result (self.new.spent ≡ true) }
        ensures stays { self.old.spent ≡ true → self.new ≡ self.old }
    {
        if self.is_spent {
            return Err(NoMemory);
        }
        let out = self.act(item)?;
        Ok(out.into_records())
    }

    /// Acts on a D, as `step` does: works all pending prefixes, and answers the UPDATEs for the cells that change and a summary. With
    /// `threads` the shards are worked side by side, in as many threads as there are processors.
    ///
    /// Whatever `threads` is, the answer is the same, and so is the platform after it. `NoMemory` where there was no room, which spends the
    /// platform, and where it was spent.
    pub fn drain_all<R: Threads + Sync>(
        &mut self,
        rt: &R,
        threads: bool,
    ) -> Result<Vec<Out>, NoMemory>
        ensures after { OnOk result (self.new.seen ≡ drained self.old.seen) }
        ensures output { IfOk result (λ out. out.items ≡ drained_output self.old.seen) }
        ensures steps { IfOk result (λ out. Steps self.old.seen self.new.seen drain_record out.items) }
        ensures framed { IfOk result (λ out. AreFramed out.items) }
        ensures fresh { OnOk result ((self.old.spent ≡ false) × (self.new.spent ≡ false)) }
        ensures spent { OnErr result (self.new.spent ≡ true) }
        ensures stays { self.old.spent ≡ true → self.new ≡ self.old }
    {
        if self.is_spent {
            return Err(NoMemory);
        }
        let out = self.drain_by(rt, threads)?;
        Ok(out.into_records())
    }

    /// How many prefixes are pending: 2^64 - 1 where there are more.
    pub fn pending(&self) -> u64
        ensures { result ≡ pending_number self.now.seen }
    {
        self.shards.pending()
    }

    /// The least prefix after the given one at which a slot is given a route, announced or not. None exactly where there is none.
    pub fn next_entry(&self, slot: Slot, after: Option<Prefix>) -> Option<Prefix>
        requires { slot < length self.now.seen.roster.members }
        ensures { IsNextGiven self.now.seen slot after result }
    {
        self.shards.next_entry(slot, after)
    }

    /// Acts on a record, where there was memory so far.
    fn act(&mut self, item: &Record) -> Result<Outputs, NoMemory>
        requires fresh { self.old.spent ≡ false }
        requires body { has_length item.now.kind (length item.now.body) ≡ true }
        requires number { begins item.now.kind ≡ true → AllByRecursion (λ entry. entry.0 < item.now.source) self.old.seen.sessions }
        requires time { is_time item.now.kind ≡ true → self.old.seen.time ≤ moment_of item.now.body }
        ensures steps { IfOk result (λ out. Steps self.old.seen self.new.seen item.now out) }
        ensures unspent { OnOk result (self.new.spent ≡ false) }
        ensures spent { OnErr result (self.new.spent ≡ true) }
        ensures octets { AreOctets item.now.body }
    {
        let body = octets_in(&item.body);
        match item.kind {
            Kind::Links => self.take_links(body),
            Kind::Time => self.pass(item),
            Kind::Slice => self.work_slice(body),
            Kind::Drain => self.drain(&InTurn),
            _ => self.take_turns(item),
        }
    }

    /// Something comes to one session, or opens one.
    fn take_turns(&mut self, item: &Record) -> Result<Outputs, NoMemory>
        requires fresh { self.old.spent ≡ false }
        requires kind { is_of_sessions item.now.kind ≡ true }
        requires body { has_length item.now.kind (length item.now.body) ≡ true }
        requires number { begins item.now.kind ≡ true → AllByRecursion (λ entry. entry.0 < item.now.source) self.old.seen.sessions }
        ensures steps { IfOk result (λ out. Steps self.old.seen self.new.seen item.now out) }
        ensures unspent { OnOk result (self.new.spent ≡ false) }
        ensures spent { OnErr result (self.new.spent ≡ true) }
    {
        self.is_spent = true;
        let mut out = Outputs::new(self.alloc);
        let turns = self
            .connections
            .turns(self.shards.roster(), item, self.time)?;
        carry_out_all(turns, &mut self.shards, &mut out)?;
        self.is_spent = false;
        Ok(out)
    }

    /// The time comes to each session, and then to the link state.
    fn pass(&mut self, item: &Record) -> Result<Outputs, NoMemory>
        requires fresh { self.old.spent ≡ false }
        requires kind { item.now.kind ≡ kind.Time }
        requires body { length item.now.body ≡ 8 }
        requires time { self.old.seen.time ≤ moment_of item.now.body }
        ensures steps { IfOk result (λ out. Steps self.old.seen self.new.seen item.now out) }
        ensures unspent { OnOk result (self.new.spent ≡ false) }
        ensures spent { OnErr result (self.new.spent ≡ true) }
    {
        self.is_spent = true;
        let mut out = Outputs::new(self.alloc);
        let turns = self
            .connections
            .turns(self.shards.roster(), item, self.time)?;
        carry_out_all(turns, &mut self.shards, &mut out)?;
        self.time = read_time(&item.body);
        self.links.pass(&mut self.shards, self.time)?;
        self.is_spent = false;
        Ok(out)
    }

    /// Octets of the link-state stream come.
    fn take_links(&mut self, octets: &[u8]) -> Result<Outputs, NoMemory>
        requires { self.old.spent ≡ false }
        ensures steps { IfOk result (λ out. (item : FeedRecord) → item.kind ≡ kind.Links → item.body ≡ octets.now → Steps self.old.seen self.new.seen item out) }
        ensures unspent { OnOk result (self.new.spent ≡ false) }
        ensures spent { OnErr result (self.new.spent ≡ true) }
    {
        self.is_spent = true;
        let mut out = Outputs::new(self.alloc);
        self.links
            .take_octets(&mut self.shards, octets, self.time, &mut out)?;
        self.is_spent = false;
        Ok(out)
    }

    /// Some pending prefixes of a shard are worked.
    fn work_slice(&mut self, body: &[u8]) -> Result<Outputs, NoMemory>
        requires fresh { self.old.spent ≡ false }
        requires body { length body.now ≡ 6 }
        ensures steps { IfOk result (λ out. (item : FeedRecord) → item.kind ≡ kind.Slice → item.body ≡ body.now → Steps self.old.seen self.new.seen item out) }
        ensures unspent { OnOk result (self.new.spent ≡ false) }
        ensures spent { OnErr result (self.new.spent ≡ true) }
    {
        self.is_spent = true;
        let mut out = Outputs::new(self.alloc);
        let (number, count) = read_slice(body);
        work_slice(&self.connections, &mut self.shards, number, count, &mut out)?;
        self.updates = self.updates.saturating_add(out.len() as u64);
        self.is_spent = false;
        Ok(out)
    }

    /// All pending prefixes are worked, with `threads` the shards side by side, and a summary follows.
    fn drain_by<R: Threads + Sync>(&mut self, rt: &R, threads: bool) -> Result<Outputs, NoMemory>
        requires { self.old.spent ≡ false }
        ensures steps { IfOk result (λ out. (item : FeedRecord) → item.kind ≡ kind.Drain → Steps self.old.seen self.new.seen item out) }
        ensures unspent { OnOk result (self.new.spent ≡ false) }
        ensures spent { OnErr result (self.new.spent ≡ true) }
    {
        if threads {
            self.drain(&InThreads { threads: rt })
        } else {
            self.drain(&InTurn)
        }
    }

    /// All pending prefixes are worked, and a summary follows.
    fn drain<W: Workers>(&mut self, workers: &W) -> Result<Outputs, NoMemory>
        requires ready { W.ready workers.now }
        requires fresh { self.old.spent ≡ false }
        ensures steps { IfOk result (λ out. (item : FeedRecord) → item.kind ≡ kind.Drain → Steps self.old.seen self.new.seen item out) }
        ensures unspent { OnOk result (self.new.spent ≡ false) }
        ensures spent { OnErr result (self.new.spent ≡ true) }
    {
        self.is_spent = true;
        let mut out = Outputs::new(self.alloc);
        work_all(workers, &self.connections, &mut self.shards, &mut out)?;
        self.updates = self.updates.saturating_add(out.len() as u64);
        out.add_summary(
            self.shards.connected_count(),
            self.shards.announced_count(),
            self.updates,
        )?;
        self.is_spent = false;
        Ok(out)
    }
}

/// The body, of which each octet is below 256.
fn octets_in(body: &[u8]) -> &[u8]
    ensures same { result.now ≡ body.now }
    ensures octets { AreOctets body.now }
{
    body
}

/// Why a record of a kind with this body isn't one for a roster, if so.
fn fault_for(roster: &Roster, kind: Kind, body: &[u8]) -> Option<FeedWhy>
    requires { has_length kind (length body.now) ≡ true }
    ensures { result ≡ kind_fault roster.now body.now kind }
{
    match kind {
        Kind::Ready => {
            if slot_named(roster, body).is_some() {
                None
            } else {
                Some(FeedWhy::UnknownRouter)
            }
        }
        Kind::Slice => {
            if read_slice(body).0 < roster.shards() {
                None
            } else {
                Some(FeedWhy::BadShard)
            }
        }
        _ => None,
    }
}
