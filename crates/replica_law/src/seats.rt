//! The routers of a roster, found by their IDs.

ghost use Rattle.std.specs.Prelude.{◌≡◌, ◌≢◌, ◌<◌, length, AllPairs, IfOk, IfSome};
ghost use Rattle.rcp_model.specs.Graphs.{AreMembers};
ghost use Rattle.replica_law.specs.Replicas.{slot_of, identifier_of};
ghost use Rattle.replica_law.specs.Steps.{AreSlots};

use rcp_base::{Addr, Member, NoMemory, RouterId, Slot};
use rcp_model::Assigned;
use std::alloc::Global;
use std::collections::BTreeMap;
use std::marker::Model;

/// The routers of a roster, found by their IDs. Contracts see the members by slot.
#[derive(Debug, Drop)]
pub struct Seats {
    members: Vec<Member>,
    slots: BTreeMap<RouterId, Slot>,
}

impl Model for Seats {
    ghost use Rattle.std.specs.Prelude.{List};
    ghost use Rattle.rcp_base.specs.declared.names.Member.{Member};
    ghost use Rattle.replica_law.specs.Steps.{AreSlots};

    ghost Value = { List Member };

    ghost view = { λ s. s.members.items };

    ghost invariant = { λ s. AreSlots s.members.items s.slots };
}

impl Seats {
    /// The routers of a platform's roster.
    pub fn of<X: Assigned>(alloc: Global, platform: &X) -> Result<Seats, NoMemory>
        ensures { IfOk result (λ seats. seats ≡ X.members platform.now) }
    {
        let members = members_of(alloc, platform)?;
        let slots = slots_of(alloc, members.as_slice())?;
        Ok(Seats { members, slots })
    }

    /// The members by slot.
    pub fn members(&self) -> &[Member]
        ensures { result.now ≡ self.now }
    {
        self.members.as_slice()
    }

    /// The slot of a router, `None` exactly where the roster doesn't have it.
    pub fn slot(&self, router: RouterId) -> Option<Slot>
        ensures slot { result ≡ slot_of self.now router }
        ensures within { IfSome result (λ slot. slot < length self.now) }
    {
        self.slots.get(&router).copied()
    }

    /// The BGP Identifier of a router, `None` exactly where the roster doesn't have it.
    pub fn identifier(&self, router: RouterId) -> Option<Addr>
        ensures { result ≡ identifier_of self.now router }
    {
        let slot = self.slot(router)?;
        Some(self.members[slot.0 as usize].bgp_id)
    }
}

/// The members of a platform by slot.
fn members_of<X: Assigned>(alloc: Global, platform: &X) -> Result<Vec<Member>, NoMemory>
    ensures members { IfOk result (λ members. members.items ≡ X.members platform.now) }
    ensures distinct { IfOk result (λ members. AreMembers members.items) }
{
    let mut members = Vec::new(alloc);
    for place in 0..platform.members() {
        members.push(Member {
            router: platform.router(Slot(place)),
            bgp_id: platform.bgp_id(Slot(place)),
        })?;
    }
    Ok(members)
}

/// The slot of each router.
fn slots_of(alloc: Global, members: &[Member]) -> Result<BTreeMap<RouterId, Slot>, NoMemory>
    requires { AreMembers members.now }
    ensures { IfOk result (λ slots. AreSlots members.now slots) }
{
    let mut slots = BTreeMap::new(alloc);
    for (place, member) in members.iter().enumerate() {
        slots.insert(member.router, Slot(place as u16))?;
    }
    Ok(slots)
}
