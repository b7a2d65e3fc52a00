//! The worker.

ghost use Rattle.std.specs.Prelude.{◌≡◌, ◌-◌, ◌+◌, ◌<◌, ◌≤◌, ◌^◌, ◌⊎◌, ◌++◌, [], ℕ, List, true, false, min, map, length, All, IfOk, OnOk, OnErr, IfErr, MatchResult, is_err};
ghost use Rattle.mailbox.specs.Boxes.{sent, received};
ghost use Rattle.rcs_shard.specs.Shards.{ShardOf};
ghost use Rattle.shard_worker.specs.Runs.{Letter, started, after_messages, pending_of};
ghost use Rattle.shard_worker.specs.Ends.{inbox_of, port_of};
ghost use Rattle.shard_worker.specs.Workers.{IsIdle, IsCurrent, IsRunOf};
ghost use Rattle.shard_worker.specs.Turns.{HasTaken, HasLost, taken_since, messages_done, work_done, AreOffered, StopsWhereFull, HasOfferLeft, HasAnnounce, HasFailed, put_count};

use crate::offering::put_offers;
use crate::running::Running;
use cost_rows::View;
use mailbox::{Receiver, Sender, take};
use outside::Gate;
use rcp_base::NoMemory;
use rcp_model::Offer;
use rcp_model::rcs_mail::ShardMail;
use rcs_shard::Shard;
use std::marker::Model;
use std::sync::Wait;

/// How long a worker rests before it tries a full mailbox again, in milliseconds.
const FULL_REST: u32 = 5;

/// What a turn did.
#[derive(Clone, Copy, Debug, PartialEq, Eq)]
pub struct Turned {
    /// How many messages were taken.
    pub taken: u32,
    /// How many prefixes were worked.
    pub worked: u32,
    /// How many offers were put, or the last value of the type where they are more.
    pub offered: u64,
    /// Whether the mailbox was found empty.
    pub empty: bool,
}

/// The worker of a shard. Contracts see the running shard, the mailbox by what was taken from it, the mailboxes of offers by what
/// was put into them, and whether the worker is spent.
#[derive(Drop)]
pub struct Worker {
    running: Running,
    mail: Receiver<ShardMail<View>>,
    offers: Vec<Sender<Offer>>,
    spent: bool,
}

impl Model for Worker {
    ghost use Rattle.shard_worker.specs.Workers.{WorkerOf, IsWorker};

    ghost Value = { WorkerOf };

    ghost use Rattle.std.specs.Coded.{codes};
    ghost use Rattle.atomic_table.specs.Seated.{table_id_coded};
    ghost use Rattle.shard_worker.specs.Runs.{run_code};

    ghost coded = { Prim.hlevel (codes, run_code, table_id_coded) };

    ghost use Rattle.std.specs.Prelude.{map};
    ghost use Rattle.shard_worker.specs.Ends.{inbox_of, port_of};

    ghost view = { λ w. record {
      run = w.running;
      inbox = inbox_of w.mail;
      ports = map port_of w.offers.items;
      spent = w.spent;
    } };

    ghost invariant = { λ w. IsWorker w.running (map port_of w.offers.items) };
}

/// How many messages were taken, and whether the mailbox was found empty.
struct Taken {
    count: u32,
    empty: bool,
}

/// Takes at most `budget` messages, and does what they say. `NoMemory` comes only where there was no room for what the last one announces.
fn take_mail<R: Wait>(
    rt: &R,
    mail: &mut Receiver<ShardMail<View>>,
    running: &mut Running,
    budget: u32,
) -> Result<Taken, NoMemory>
    ensures taken { IfOk result (λ t. HasTaken budget t.count t.empty (inbox_of mail.old) (inbox_of mail.new)) }
    ensures done { OnOk result (running.new ≡ after_messages (taken_since (inbox_of mail.old) (inbox_of mail.new)) running.old) }
    ensures lost { OnErr result (HasLost budget (inbox_of mail.old) (inbox_of mail.new) running.old running.new) }
{
    for count in 0..budget {
        match take(rt, mail) {
            Some((sender, message)) => running.take(sender, message)?,
            None => return Ok(Taken { count, empty: true }),
        }
    }
    Ok(Taken {
        count: budget,
        empty: false,
    })
}

impl Worker {
    /// The worker of a shard with its mailbox, and with a sender of offers for each member, in the order of slots. It takes no memory.
    ///
    /// No slot of the shard is connected and nothing is announced. Nothing was taken from the mailbox; in it a slot's messages come under the slot
    /// as number and the viewer's under the number after the last slot's. Nothing was put by the senders.
    pub fn new(shard: Shard, mail: Receiver<ShardMail<View>>, offers: Vec<Sender<Offer>>) -> Worker
        requires idle { IsIdle shard }
        requires mail { received mail ≡ [] }
        requires offers { length offers.items ≡ length shard.members }
        requires nothing { All (λ sender. sent sender ≡ []) offers.items }
        ensures new { result ≡ record { run = started shard; inbox = inbox_of mail; ports = map port_of offers.items; spent = false } }
        ensures run { IsRunOf shard result }
    {
        Worker {
            running: Running::new(shard),
            mail,
            offers,
            spent: false,
        }
    }

    /// Passes the gate with the number of the shard. Then takes at most `budget` messages and does what they say, works at most `budget` pending
    /// prefixes, and puts the dirty cells of each connected slot as offers of the slot's generation, until that slot's mailbox is full or
    /// none of its cells is dirty. It waits for nobody but at the gate.
    ///
    /// `NoMemory` comes where an announcement found no room, which is lost then; or where an offer couldn't share its octets, and its cell stays dirty.
    /// From then on the worker is spent, and each call answers `NoMemory` and takes nothing.
    pub fn turn<R: Wait, G: Gate>(
        &mut self,
        rt: &R,
        budget: u32,
        gate: &G,
    ) -> Result<Turned, NoMemory>
        ensures taken { IfOk result (λ t. HasTaken budget t.taken t.empty self.old.inbox self.new.inbox) }
        ensures worked { IfOk result (λ t. t.worked ≡ min budget (length (pending_of (messages_done self.old self.new).shard))) }
        ensures enough { IfOk result (λ t. (t.worked ≡ budget) ⊎ (pending_of self.new.run.shard ≡ [])) }
        ensures generations { OnOk result (self.new.run.generations ≡ (messages_done self.old self.new).generations) }
        ensures offers { OnOk result (AreOffered (work_done budget self.old self.new) self.new.run.shard self.old.ports self.new.ports) }
        ensures offered { IfOk result (λ t. t.offered ≡ min (put_count self.new.ports - put_count self.old.ports) (2 ^ 64 - 1)) }
        ensures full { OnOk result (StopsWhereFull self.new.run.shard self.old.ports self.new.ports) }
        ensures run { OnOk result ((start : ShardOf) → IsRunOf start self.old → IsRunOf start self.new) }
        ensures current { IsCurrent self.new.run self.new.ports }
        ensures spent { self.new.spent ≡ is_err result }
        ensures failed { OnErr result (HasFailed budget self.old (record self.new { spent = self.old.spent })) }
        ensures cause { OnErr result ((self.old.spent ≡ true) ⊎ (HasAnnounce (taken_since self.old.inbox self.new.inbox) ⊎ HasOfferLeft self.new.run.shard)) }
    {
        gate.pass(u32::from(self.running.shard().number()));
        if self.spent {
            return Err(NoMemory);
        }
        self.spent = true;
        let Taken { count, empty } = take_mail(rt, &mut self.mail, &mut self.running, budget)?;
        let worked = self.running.work(budget);
        let offered = put_offers(rt, &mut self.running, &mut self.offers)?;
        self.spent = false;
        Ok(Turned {
            taken: count,
            worked,
            offered,
            empty,
        })
    }

    /// Rests until a message was put since the last rest, at most so many milliseconds. It may return before. Where offers are left whose mailbox was full, which nobody reports once it has
    /// room, the rest is at most 5 milliseconds. It looks at each slot.
    pub fn rest<R: Wait>(&self, rt: &R, milliseconds: u32) {
        let longest = if self.running.has_offers_left() {
            milliseconds.min(FULL_REST)
        } else {
            milliseconds
        };
        self.mail.rest(rt, longest);
    }

    /// Takes a worker apart, a spent one too: its shard, its mailbox and its senders of offers by slot. It takes no memory.
    pub fn into_parts(self) -> (Shard, Receiver<ShardMail<View>>, Vec<Sender<Offer>>)
        ensures shard { result.0 ≡ self.run.shard }
        ensures mail { inbox_of result.1 ≡ self.inbox }
        ensures offers { map port_of result.2.items ≡ self.ports }
        ensures current { IsCurrent self.run self.ports }
    {
        (self.running.into_shard(), self.mail, self.offers)
    }
}
