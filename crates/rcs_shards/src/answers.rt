//! What is asked of all shards.

ghost use Rattle.std.specs.Prelude.{◌≡◌, ◌<◌, length, min, IfSome, option_map};
ghost use Rattle.rcp_model.specs.Assigned.{IsNextAnnounced};
ghost use Rattle.rcp_model.specs.Costs.{IsTwoWay};
ghost use Rattle.rcp_model.specs.Telling.{IsRouteOf};
ghost use Rattle.feed_meaning.specs.OutRecords.{MOST};
ghost use Rattle.platform_laws.specs.Parts.{shard_number};
ghost use Rattle.platform_laws.specs.Asked.{is_connected, is_pending, announced_route, given_route, connected_count, announced_count, pending_count};
ghost use Rattle.rcs_shards.specs.Servers.{edges_in, announced_octets, IsNextGiven, IsSoundServer, IsAssigned};

use crate::asking;
use crate::shards::Shards;
use cost_rows::View;
use rcp_base::{Prefix, Slot, shard_of};
use rcp_model::Route;
use roster::Roster;

impl Shards {
    /// The roster. The call also gives a proof that the shards are sound.
    pub fn roster(&self) -> &Roster
        ensures value { result.now ≡ self.now.roster }
        ensures sound { IsSoundServer self.now }
    {
        &self.roster
    }

    /// The latest view: its members are the roster's, and its edges those of each shard.
    pub fn view(&self) -> &View
        ensures members { result.now.members ≡ self.now.roster.members }
        ensures edges { result.now.edges ≡ edges_in self.now.shards }
    {
        &self.view
    }

    /// How many routers there are. The second clause is the law of `Assigned` for all answers, where the edges come in both directions.
    pub fn members(&self) -> u16
        ensures count { result ≡ length self.now.roster.members }
        ensures law { IsTwoWay (edges_in self.now.shards) → IsAssigned self.now }
    {
        let view: &View = &self.view;
        // The edges are known to be those of a graph once they are read.
        let _edges = view.graph().edges();
        view.members().len() as u16
    }

    /// Whether the router of a slot has a session that is established.
    pub fn connected(&self, slot: Slot) -> bool
        ensures { result ≡ is_connected self.now.shards slot }
    {
        self.shards[0].connected(slot)
    }

    /// The route that a slot announces for a prefix. Its fields are those of its octets in the roster's AS.
    pub fn announcement(&self, slot: Slot, p: Prefix) -> Option<&Route>
        ensures route { option_map (λ route. route.now) result ≡ announced_route self.now.roster self.now.shards p slot }
        ensures fields { IfSome result (λ route. IsRouteOf self.now.roster.as_number route.now) }
    {
        self.shards[self.number_of(p)].announcement(slot, p)
    }

    /// The route that a slot is given for a prefix. Its fields are those of its octets in the roster's AS.
    pub fn table(&self, slot: Slot, p: Prefix) -> Option<&Route>
        requires { slot < length self.now.roster.members }
        ensures route { option_map (λ route. route.now) result ≡ given_route self.now.roster self.now.shards p slot }
        ensures fields { IfSome result (λ route. IsRouteOf self.now.roster.as_number route.now) }
    {
        self.shards[self.number_of(p)].table(slot, p)
    }

    /// Whether a prefix is pending.
    pub fn is_pending(&self, p: Prefix) -> bool
        ensures { result ≡ is_pending self.now.roster self.now.shards p }
    {
        self.shards[self.number_of(p)].is_pending(p)
    }

    /// The least prefix after the given one that some slot announces, or the least of all. None exactly where there is none. It asks each shard.
    pub fn next_prefix(&self, after: Option<Prefix>) -> Option<Prefix>
        ensures { IsNextAnnounced (announced_octets self.now) after result }
    {
        asking::next_prefix(&self.shards, after)
    }

    /// The least prefix after the given one at which a slot is given a route, or the least of all. None exactly where there is none. It asks each shard.
    pub fn next_entry(&self, slot: Slot, after: Option<Prefix>) -> Option<Prefix>
        requires { slot < length self.now.roster.members }
        ensures { IsNextGiven self.now slot after result }
    {
        asking::next_entry(&self.shards, slot, after)
    }

    /// How many prefixes are pending: 2^64 - 1 where there are more. It adds a kept count of each shard.
    pub fn pending(&self) -> u64
        ensures { result ≡ min (pending_count self.now.shards) MOST }
    {
        asking::pending(&self.shards)
    }

    /// How many slots are connected. It is kept.
    pub fn connected_count(&self) -> u64
        ensures { result ≡ connected_count self.now.shards }
    {
        self.connected
    }

    /// How many prefixes are announced: 2^64 - 1 where there are more. It adds a kept count of each shard.
    pub fn announced_count(&self) -> u64
        ensures { result ≡ min (announced_count self.now.shards) MOST }
    {
        asking::announced(&self.shards)
    }

    /// The place of the shard of a prefix.
    pub(crate) fn number_of(&self, p: Prefix) -> usize
        ensures number { result ≡ shard_number self.now.roster p }
        ensures within { result < length self.now.shards }
    {
        usize::from(shard_of(p, self.roster.shards()))
    }
}
