// A running shard: which messages are in place, and what they do.
ghost use Rattle.std.specs.Prelude.{◌≡◌, ◌⊎◌, ◌==◌, ◌<◌, ◌-◌, ◌^◌, [], true, length, min, IfOk, OnOk, OnErr};
ghost use Rattle.std.specs.List.{list_all};
ghost use Rattle.mailbox.specs.Boxes.{sent, refusals_of, counted};
ghost use Rattle.rcp_base.specs.IpPrefix.{IpPrefix};
ghost use Rattle.rcp_model.specs.declared.rcs_mail.ShardMail.TheVariants as mail_of;
ghost use Rattle.rcs_shard.specs.Shards.{is_connected, is_dirty};
ghost use Rattle.shard_worker.specs.Runs.{is_own, is_served, same_members, started, after_message, worked_off, pending_of};
ghost use Rattle.shard_worker.specs.Ends.{port_of};
ghost use Rattle.shard_worker.specs.Turns.{IsAnnounce, HasAttributesLeft, IsOfferedTo};

use crate::offering::put_dirty;
use cost_rows::View;
use mailbox::Sender;
use rcp_base::{Member, NoMemory, Prefix, Slot};
use rcp_model::rcs_mail::ShardMail;
use rcp_model::{Offer, Route};
use rcs_shard::Shard;
use std::marker::Model;
use std::sync::{Arc, Wait};

/// A roster has at most so many members.
const MOST_MEMBERS: usize = 512;

/// A shard, and by slot the generation of the slot's last session. The generations have a place for each slot of the largest
/// roster, so that a shard starts to run without memory.
#[derive(Drop)]
pub(crate) struct Running {
    shard: Shard,
    generations: [u64; MOST_MEMBERS],
}

impl Model for Running {
    ghost use Rattle.shard_worker.specs.Runs.{RunOf, run_code};

    ghost Value = { RunOf };

    ghost coded = { run_code };

    ghost use Rattle.std.specs.Prelude.{◌≤◌, length};
    ghost use Rattle.shard_worker.specs.Runs.{run_in};

    ghost view = { λ r. run_in r.shard r.generations };

    ghost invariant = { λ r. length r.shard.members ≤ 512 };
}

/// Whether both lists have the same routers and BGP Identifiers in the same order.
fn are_same(members: &[Member], others: &[Member]) -> bool
    ensures { result ≡ same_members members.now others.now }
{
    members == others
}

/// The generations before the first session.
fn no_generations() -> [u64; MOST_MEMBERS]
    ensures count { length result ≡ 512 }
    ensures none { list_all (λ generation. generation == 0) result ≡ true }
{
    [0; MOST_MEMBERS]
}

impl Running {
    pub(crate) fn new(shard: Shard) -> Running
        ensures { result ≡ started shard }
    {
        let _members = shard.members();
        Running {
            shard,
            generations: no_generations(),
        }
    }

    pub(crate) fn into_shard(self) -> Shard
        ensures { result ≡ self.shard }
    {
        self.shard
    }

    pub(crate) fn shard(&self) -> &Shard
        ensures { result.now ≡ self.now.shard }
    {
        &self.shard
    }

    /// Takes a message of the sender with this number. One out of place changes nothing. `NoMemory` comes where there was no room for what is announced.
    pub(crate) fn take(&mut self, sender: u32, message: ShardMail<View>) -> Result<(), NoMemory>
        ensures done { OnOk result (self.new ≡ after_message (sender, message) self.old) }
        ensures refused { OnErr result (self.new ≡ self.old) }
        ensures cause { OnErr result (IsAnnounce (sender, message)) }
    {
        match message {
            ShardMail::Up { slot, generation } => {
                self.up(sender, slot, generation);
                Ok(())
            }
            ShardMail::Announce {
                slot,
                prefix,
                route,
            } => self.announce(sender, slot, prefix, route),
            ShardMail::Withdraw { slot, prefix } => {
                self.withdraw(sender, slot, prefix);
                Ok(())
            }
            ShardMail::Down { slot } => {
                self.down(sender, slot);
                Ok(())
            }
            ShardMail::View(view) => {
                self.view(sender, view);
                Ok(())
            }
        }
    }

    /// Works so many of the pending prefixes, the least first, or all. Returns how many.
    pub(crate) fn work(&mut self, budget: u32) -> u32
        ensures done { self.new ≡ worked_off budget self.old }
        ensures count { result ≡ min budget (length (pending_of self.old.shard)) }
        ensures enough { (result ≡ budget) ⊎ (pending_of self.new.shard ≡ []) }
    {
        for worked in 0..budget {
            match self.shard.work() {
                Some(_) => {}
                None => return worked,
            }
        }
        budget
    }

    /// How many members there are, which is how many slots.
    pub(crate) fn members(&self) -> u16
        ensures { result ≡ length self.now.shard.members }
    {
        self.shard.members().len() as u16
    }

    /// Offers the dirty cells of a slot by its sender, where the slot is connected, until the mailbox is full or none is dirty. Returns how many
    /// offers were put.
    pub(crate) fn offer<R: Wait>(
        &mut self,
        rt: &R,
        slot: Slot,
        sender: &mut Sender<Offer>,
    ) -> Result<u64, NoMemory>
        requires { slot < length self.old.shard.members }
        ensures generations { self.new.generations ≡ self.old.generations }
        ensures put { IsOfferedTo self.old slot self.new.shard (port_of sender.old) (port_of sender.new) }
        ensures count { IfOk result (λ n. n ≡ min (length (sent sender.new) - length (sent sender.old)) (2 ^ 64 - 1)) }
        ensures full { OnOk result ((p : IpPrefix) → is_connected self.new.shard slot ≡ true → is_dirty self.new.shard slot p ≡ true → refusals_of sender.new ≡ counted (refusals_of sender.old)) }
        ensures left { OnErr result ((is_connected self.new.shard slot ≡ true) × HasAttributesLeft self.new.shard slot) }
    {
        if !self.shard.connected(slot) {
            return Ok(0);
        }
        let generation = self.generations[usize::from(slot.0)];
        put_dirty(rt, &mut self.shard, slot, generation, sender)
    }

    /// Whether a connected slot has a dirty cell, which is one that found its mailbox full. It looks at each slot.
    pub(crate) fn has_offers_left(&self) -> bool {
        for slot in 0..self.members() {
            let slot = Slot(slot);
            if self.shard.connected(slot) && self.shard.least_dirty(slot).is_some() {
                return true;
            }
        }
        false
    }

    fn is_own(&self, sender: u32, slot: Slot) -> bool
        ensures { result ≡ is_own self.now.shard sender slot }
    {
        sender == u32::from(slot.0) && usize::from(slot.0) < self.shard.members().len()
    }

    fn is_served(&self, sender: u32, slot: Slot) -> bool
        ensures { result ≡ is_served self.now.shard sender slot }
    {
        self.is_own(sender, slot) && self.shard.connected(slot)
    }

    fn up(&mut self, sender: u32, slot: Slot, generation: u64)
        ensures { self.new ≡ after_message (sender, mail_of.Up slot generation) self.old }
    {
        if !self.is_own(sender, slot) || self.shard.connected(slot) {
            return;
        }
        let place = usize::from(slot.0);
        if generation <= self.generations[place] {
            return;
        }
        self.generations[place] = generation;
        self.shard.up(slot);
    }

    fn announce(&mut self, sender: u32, slot: Slot, p: Prefix, route: Route) -> Result<(), NoMemory>
        ensures done { OnOk result (self.new ≡ after_message (sender, mail_of.Announce slot p route) self.old) }
        ensures refused { OnErr result (self.new ≡ self.old) }
    {
        if self.is_served(sender, slot) && self.shard.owns(p) {
            self.shard.announce(slot, p, route)?;
        }
        Ok(())
    }

    fn withdraw(&mut self, sender: u32, slot: Slot, p: Prefix)
        ensures { self.new ≡ after_message (sender, mail_of.Withdraw slot p) self.old }
    {
        if self.is_served(sender, slot) && self.shard.owns(p) {
            self.shard.withdraw(slot, p);
        }
    }

    fn down(&mut self, sender: u32, slot: Slot)
        ensures { self.new ≡ after_message (sender, mail_of.Down slot) self.old }
    {
        if self.is_served(sender, slot) {
            self.shard.down(slot);
        }
    }

    fn view(&mut self, sender: u32, view: Arc<View>)
        ensures { self.new ≡ after_message (sender, mail_of.View view) self.old }
    {
        let members = self.shard.members();
        if sender as usize == members.len() && are_same(view.members(), members) {
            self.shard.view(view);
        }
    }
}
