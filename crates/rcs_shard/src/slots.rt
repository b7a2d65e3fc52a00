//! Sets of slots.

ghost use Rattle.std.specs.Prelude.{◌≡◌, ◌<◌, IfOk};
ghost use Rattle.std.specs.FinSet as set_of;
ghost use Rattle.rcs_shard.specs.Slots.{has_slot};

use rcp_base::{NoMemory, Slot};
use std::alloc::Global;
use std::marker::Model;

/// A set of slots, which takes memory only when it is made. Contracts see the number of members, and the set.
#[derive(Drop)]
pub struct SlotSet {
    flags: Vec<bool>,
}

impl Model for SlotSet {
    ghost use Rattle.rcs_shard.specs.Slots.{SlotsOf, slots_code};

    ghost Value = { SlotsOf };

    ghost coded = { slots_code };

    ghost use Rattle.rcs_shard.specs.Slots.{slots_in};

    ghost view = { λ s. slots_in s.flags.items };
}

impl SlotSet {
    /// The empty set, for so many members.
    pub fn new(alloc: Global, members: u16) -> Result<SlotSet, NoMemory>
        ensures { IfOk result (λ slots. slots ≡ record { members = members; inside = set_of.empty }) }
    {
        let flags = vec![in alloc; false; usize::from(members)]?;
        Ok(SlotSet { flags })
    }

    /// Whether a slot is in the set.
    pub fn contains(&self, slot: Slot) -> bool
        ensures { result ≡ has_slot self.now slot }
    {
        match self.flags.get(slot.0 as usize) {
            Some(flag) => *flag,
            None => false,
        }
    }

    /// Puts a slot in.
    pub fn insert(&mut self, slot: Slot)
        requires { slot < self.old.members }
        ensures { self.new ≡ record self.old { inside = set_of.insert self.old.inside slot } }
    {
        self.flags[slot.0 as usize] = true;
    }

    /// Takes a slot out.
    pub fn remove(&mut self, slot: Slot)
        requires { slot < self.old.members }
        ensures { self.new ≡ record self.old { inside = set_of.remove self.old.inside slot } }
    {
        self.flags[slot.0 as usize] = false;
    }
}
