//! Work on pending prefixes, and what each router is sent for it.

ghost use Rattle.std.specs.Prelude.{◌≡◌, ◌≢◌, ℕ, ◌<◌, ◌≤◌, List, length, map, All, AllPairs, Contains, IfOk};
ghost use Rattle.rcp_base.specs.IpPrefix.{IpPrefix};
ghost use Rattle.rcp_model.specs.Packing.{packed};
ghost use Rattle.platform_laws.specs.Asked.{all_pending};
ghost use Rattle.rcs_shards.specs.Servers.{worked, least_pending, sent};
ghost use Rattle.rcs_shards.specs.Dirty.{sliced, sliced_at, cells_of, AreReady, ArePending, AreBusy, AreDirty};

use crate::cleaning::clean;
use crate::sending::send;
use crate::shards::Shards;
use crate::workers::Workers;
use rcp_base::{NoMemory, Slot};
use rcs_shard::Shard;
use roster::Roster;
use std::alloc::Global;

/// The messages that a router is sent, in order.
pub type Messages = Vec<Vec<u8>>;

impl Shards {
    /// Works all pending prefixes, and gives for each slot of a list the UPDATEs for the cells that change for it, packed. The list has
    /// each slot once, and all that are connected: what changes for another one isn't sent to it later. Whoever works the shards, the
    /// answer is the same.
    ///
    /// `NoMemory` where there was no room for the UPDATEs or the order of the changed cells; the prefixes are worked then too. It takes the time of
    /// `Shard::work` for each pending prefix, and for each slot it asks each shard in which something was pending once, and one of them for each cell that changes.
    pub fn work_all<W: Workers>(
        &mut self,
        workers: &W,
        slots: &[Slot],
    ) -> Result<Vec<Messages>, NoMemory>
        requires ready { W.ready workers.now }
        requires members { All (λ slot. slot < length self.old.roster.members) slots.now }
        requires distinct { AllPairs (λ a b. a ≢ b) slots.now }
        ensures after { self.new ≡ worked (all_pending self.old.shards) self.old }
        ensures sent { IfOk result (λ lists. map (λ messages. map (λ m. m.items) messages.items) lists.items ≡ sent (all_pending self.old.shards) self.old self.new slots.now) }
        ensures short { IfOk result (λ lists. All (λ messages. All (λ m. length m.items ≤ 4096) messages.items) lists.items) }
    {
        let busy = pending_places(self.alloc, &self.shards);
        workers.work_each(&mut self.shards);
        let sent = send_from(self.alloc, &self.roster, &self.shards, busy, slots);
        clean(&self.roster, &mut self.shards);
        sent
    }

    /// Works the least pending prefixes of the shard of a number, so many at most and none where no shard has that number, and gives
    /// the UPDATEs for the slots of a list as `work_all` does.
    pub fn work_least(
        &mut self,
        number: u16,
        count: u32,
        slots: &[Slot],
    ) -> Result<Vec<Messages>, NoMemory>
        requires members { All (λ slot. slot < length self.old.roster.members) slots.now }
        requires distinct { AllPairs (λ a b. a ≢ b) slots.now }
        ensures after { self.new ≡ worked (least_pending number count self.old) self.old }
        ensures sent { IfOk result (λ lists. map (λ messages. map (λ m. m.items) messages.items) lists.items ≡ sent (least_pending number count self.old) self.old self.new slots.now) }
        ensures short { IfOk result (λ lists. All (λ messages. All (λ m. length m.items ≤ 4096) messages.items) lists.items) }
    {
        let place = usize::from(number);
        let busy = one_place(self.alloc, &self.shards, place);
        work_at(&mut self.shards, place, u64::from(count));
        let sent = send_from(self.alloc, &self.roster, &self.shards, busy, slots);
        clean(&self.roster, &mut self.shards);
        sent
    }
}

/// The places of the shards in which some prefix is pending.
fn pending_places(alloc: Global, shards: &[Shard]) -> Result<Vec<usize>, NoMemory>
    ensures { IfOk result (λ places. ArePending shards.now places.items (length shards.now)) }
{
    let mut places = Vec::new(alloc);
    for place in 0..shards.len() {
        if shards[place].pending() > 0 {
            places.push(place)?;
        }
    }
    Ok(places)
}

/// A place, where a shard stands there.
fn one_place(alloc: Global, shards: &[Shard], place: usize) -> Result<Vec<usize>, NoMemory>
    ensures { IfOk result (λ places. All (λ n. n < length shards.now) places.items × (place < length shards.now → Contains places.items place)) }
{
    let mut places = Vec::new(alloc);
    if place < shards.len() {
        places.push(place)?;
    }
    Ok(places)
}

/// The UPDATEs for the dirty cells of each slot of a list, where the places of the shards that have some could be listed.
fn send_from(
    alloc: Global,
    roster: &Roster,
    shards: &[Shard],
    busy: Result<Vec<usize>, NoMemory>,
    slots: &[Slot],
) -> Result<Vec<Messages>, NoMemory>
    requires ready { AreReady roster.now shards.now }
    requires busy { IfOk busy (λ places. AreBusy roster.now shards.now places.items) }
    requires members { All (λ slot. slot < length roster.now.members) slots.now }
    ensures sent { IfOk result (λ lists. (prefixes : ℕ → List IpPrefix) → ((slot : ℕ) → AreDirty roster.now shards.now slot (prefixes slot))
        → map (λ messages. map (λ m. m.items) messages.items) lists.items ≡ map (λ slot. packed (cells_of roster.now shards.now slot (prefixes slot))) slots.now) }
    ensures short { IfOk result (λ lists. All (λ messages. All (λ m. length m.items ≤ 4096) messages.items) lists.items) }
{
    let busy = busy?;
    send(alloc, roster, shards, &busy, slots)
}

/// Works the least pending prefixes of the shard at a place, where one stands there, so many at most.
fn work_at(shards: &mut Vec<Shard>, place: usize, most: u64)
    ensures { shards.new.items ≡ sliced_at place most shards.old.items }
{
    if place < shards.len() {
        work_shard(&mut shards[place], most);
    }
}

/// Works the least pending prefixes of a shard, so many at most.
pub(crate) fn work_shard(shard: &mut Shard, most: u64)
    ensures { shard.new ≡ sliced most shard.old }
{
    for _ in 0..most {
        if shard.work().is_none() {
            break;
        }
    }
}
