//! What one member reaches: the cost to each member, and those that it reaches, nearest first.

ghost use Rattle.std.specs.Prelude.{◌≡◌, ℕ, length, slice_get, map, All, Some, None, IfOk, OnOk, IfSome, ◌<◌, ◌-◌, ◌^◌};
ghost use Rattle.std.specs.List.{AllZip};
ghost use Rattle.rcp_model.specs.Graphs.{AreMembers, IsGraph};
ghost use Rattle.rcp_base.specs.Maps.{get_at};
ghost use Rattle.rcp_model.specs.LinkState.{same_number};
ghost use Rattle.cost_rows.specs.Views.{cost_at, IsRanking};
ghost use Rattle.cost_rows.specs.Keys.{AreKeys, slots_of};

use crate::packed::PackedCost;
use rcp_base::{Addr, Member, NoMemory, Slot};
use std::alloc::Global;
use std::marker::Model;

/// The costs from one member to each, by slot, and the ranking of those that it reaches. Contracts see the record of both.
#[derive(Debug, Drop)]
pub struct Reach {
    costs: Vec<PackedCost>,
    ranked: Vec<Slot>,
}

impl Model for Reach {
    ghost use Rattle.cost_rows.specs.Views.{ReachOf};

    ghost Value = { ReachOf };

    ghost view = { λ reach. record { costs = reach.costs.items; ranked = reach.ranked.items } };
}

impl Reach {
    /// What the member reaches from which these are the costs, by slot. `NoMemory` comes where there was no room for the ranking.
    pub fn new(alloc: Global, members: &[Member], costs: Vec<PackedCost>) -> Result<Reach, NoMemory>
        requires members { AreMembers members.now }
        requires each_member { length costs.items ≡ length members.now }
        ensures costs { IfOk result (λ reach. reach.costs ≡ costs.items) }
        ensures ranking { IfOk result (λ reach. IsRanking members.now (cost_at costs.items) reach.ranked) }
    {
        let ranked = ranking(alloc, members, costs.as_slice())?;
        Ok(Reach { costs, ranked })
    }

    /// The cost to a slot, `None` where it isn't reached, and where it is past the last one.
    pub fn cost(&self, to: Slot) -> Option<u32>
        ensures { result ≡ cost_at self.now.costs to }
    {
        let cost = self.costs.get(to.0 as usize)?;
        cost.get()
    }

    /// The slots that are reached, by cost, then by BGP Identifier.
    pub fn ranked(&self) -> &[Slot]
        ensures { result.now ≡ self.now.ranked }
    {
        self.ranked.as_slice()
    }
}

/// What slots are ranked by: the cost, then the BGP Identifier, which no two members share.
type Key = (u32, Addr, Slot);

/// The keys of the slots that are reached, by slot.
fn keys_of(alloc: Global, members: &[Member], costs: &[PackedCost]) -> Result<Vec<Key>, NoMemory>
    requires members { AreMembers members.now }
    requires each_member { length costs.now ≡ length members.now }
    ensures { IfOk result (λ keys. AreKeys members.now (cost_at costs.now) keys.items) }
{
    let mut keys = Vec::new(alloc);
    for (slot, member) in members.iter().enumerate() {
        if let Some(cost) = costs[slot].get() {
            keys.push((cost, member.bgp_id, Slot(slot as u16)))?;
        }
    }
    Ok(keys)
}

/// The ranking of the slots that are reached at these costs.
fn ranking(alloc: Global, members: &[Member], costs: &[PackedCost]) -> Result<Vec<Slot>, NoMemory>
    requires members { AreMembers members.now }
    requires each_member { length costs.now ≡ length members.now }
    ensures { IfOk result (λ ranked. IsRanking members.now (cost_at costs.now) ranked.items) }
{
    let mut keys = keys_of(alloc, members, costs)?;
    keys.sort_unstable();
    slots_of(alloc, keys.as_slice())
}

/// The slots of keys.
fn slots_of(alloc: Global, keys: &[Key]) -> Result<Vec<Slot>, NoMemory>
    ensures { IfOk result (λ slots. slots.items ≡ slots_of keys.now) }
{
    Ok(keys.iter().map(|key| key.2).collect(alloc)?)
}
