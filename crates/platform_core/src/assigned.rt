//! What the platform answers: it is an assignment.

use crate::platform::Platform;
use rcp_base::{Addr, Edge, Prefix, RouterId, Slot};
use rcp_model::{Assigned, Costs, Route};

impl Costs for Platform {
    ghost use Rattle.rcs_shards.specs.Servers.{edges_in};

    ghost edges = { λ p. edges_in p.seen.shards };

    ghost members = { λ p. p.seen.roster.members };

    fn cost(&self, from: Slot, to: Slot) -> Option<u32> {
        self.shards.view().cost(from, to)
    }
}

impl Assigned for Platform {
    ghost use Rattle.platform_laws.specs.Asked.{is_connected, is_pending, announced_route, given_route, octets_of};

    ghost as_number = { λ p. p.seen.roster.as_number };

    ghost connected = { λ p. is_connected p.seen.shards };

    ghost announced = { λ p prefix slot. octets_of (announced_route p.seen.roster p.seen.shards prefix slot) };

    ghost given = { λ p prefix slot. octets_of (given_route p.seen.roster p.seen.shards prefix slot) };

    ghost pending = { λ p. is_pending p.seen.roster p.seen.shards };

    fn as_number(&self) -> u32 {
        self.roster().as_number()
    }

    fn members(&self) -> u16 {
        self.shards.members()
    }

    fn router(&self, slot: Slot) -> RouterId {
        self.roster().member(slot).router
    }

    fn bgp_id(&self, slot: Slot) -> Addr {
        self.roster().member(slot).bgp_id
    }

    fn connected(&self, slot: Slot) -> bool {
        self.shards.connected(slot)
    }

    fn announcement(&self, slot: Slot, p: Prefix) -> Option<&Route> {
        self.shards.announcement(slot, p)
    }

    fn next_prefix(&self, after: Option<Prefix>) -> Option<Prefix> {
        self.shards.next_prefix(after)
    }

    fn is_pending(&self, p: Prefix) -> bool {
        self.shards.is_pending(p)
    }

    fn table(&self, slot: Slot, p: Prefix) -> Option<&Route> {
        self.shards.table(slot, p)
    }

    fn edge(&self, place: u64) -> Option<Edge> {
        self.shards
            .view()
            .graph()
            .edges()
            .get(place as usize)
            .copied()
    }
}
