//! A roster, and what is asked of it.

ghost use Rattle.std.specs.Prelude.{◌≡◌, ◌<◌, ◌≤◌, ◌==◌, length, Some, slice_get, position, IfSome};
ghost use Rattle.rcp_base.specs.Roster.{slot_from};
ghost use Rattle.roster.specs.Form.{IsAsNumber, IsShardCount, IsHoldTime, InForm};

use crate::members::Members;
use rcp_base::{Addr, Member, RouterId, Slot};
use rcp_model::Edge;
use std::marker::Model;

/// The values of the settings.
#[derive(Clone, Copy, Debug, PartialEq, Eq)]
pub struct Settings {
    pub as_number: u16,
    pub id: Addr,
    pub shards: u16,
    pub hold: u16,
    pub area: Addr,
}

/// The routers that the platform speaks for, and the settings of its sessions.
#[derive(Debug, Drop)]
pub struct Roster {
    pub(crate) settings: Settings,
    pub(crate) members: Members,
    pub(crate) links: Vec<Edge>,
}

impl Model for Roster {
    ghost use Rattle.rcp_base.specs.Roster.{RosterOf};
    ghost use Rattle.roster.specs.Form.{InForm};

    ghost Value = { RosterOf };

    ghost view = { λ r. record { as_number = r.settings.as_number; id = r.settings.id; shards = r.settings.shards; hold = r.settings.hold; area = r.settings.area; members = r.members; links = r.links.items } };

    ghost invariant = { λ r. InForm (record { as_number = r.settings.as_number; id = r.settings.id; shards = r.settings.shards; hold = r.settings.hold; area = r.settings.area; members = r.members; links = r.links.items }) };
}

impl Roster {
    /// The number of the platform's autonomous system: 1 to 65535, not 23456.
    pub fn as_number(&self) -> u32
        ensures value { result ≡ self.now.as_number }
        ensures within { IsAsNumber result }
    {
        u32::from(self.settings.as_number)
    }

    /// The platform's BGP Identifier (RFC 4271 section 4.2).
    pub fn id(&self) -> Addr
        ensures { result ≡ self.now.id }
    {
        self.settings.id
    }

    /// How many shards the prefixes are parted into: 1 to 64.
    pub fn shards(&self) -> u16
        ensures value { result ≡ self.now.shards }
        ensures within { IsShardCount result }
    {
        self.settings.shards
    }

    /// The hold time that the platform offers, in seconds: 0, or 3 to 65535 (RFC 4271 section 4.2).
    pub fn hold(&self) -> u16
        ensures value { result ≡ self.now.hold }
        ensures within { IsHoldTime result }
    {
        self.settings.hold
    }

    /// The OSPF area whose link state counts (RFC 2328 section 3).
    pub fn area(&self) -> u32
        ensures { result ≡ self.now.area }
    {
        self.settings.area.0
    }

    /// How many routers there are: 0 to 512. The call also gives a proof that the roster is in form.
    pub fn len(&self) -> u16
        ensures len { result ≡ length self.now.members }
        ensures few { result ≤ 512 }
        ensures form { InForm self.now }
    {
        self.members.len() as u16
    }

    /// The router at a slot. No other has its router ID or its BGP Identifier.
    pub fn member(&self, slot: Slot) -> Member
        requires { slot < length self.now.members }
        ensures value { slice_get self.now.members slot ≡ Some result }
        ensures router { slot_from 0 self.now.members result.router ≡ Some slot }
        ensures identifier { position (λ member. member.bgp_id == result.bgp_id) self.now.members ≡ Some slot }
    {
        self.members.get(slot)
    }

    /// The slot of the router with this router ID. It takes a time that doesn't grow with the roster.
    pub fn slot_of(&self, router: RouterId) -> Option<Slot>
        ensures place { result ≡ position (λ member. member.router == router) self.now.members }
        ensures slot { result ≡ slot_from 0 self.now.members router }
        ensures within { IfSome result (λ slot. slot < length self.now.members) }
    {
        self.members.slot_of(router)
    }

    /// The slot of the router with this BGP Identifier. It takes a time that doesn't grow with the roster.
    pub fn slot_of_bgp(&self, id: Addr) -> Option<Slot>
        ensures place { result ≡ position (λ member. member.bgp_id == id) self.now.members }
        ensures within { IfSome result (λ slot. slot < length self.now.members) }
    {
        self.members.slot_of_bgp(id)
    }

    /// The links of the link lines, each forth and back, in the order of the lines.
    pub fn links(&self) -> &[Edge]
        ensures { result.now ≡ self.now.links }
    {
        &self.links
    }
}
