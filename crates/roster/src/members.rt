//! The routers of a roster, found by their router IDs and by their BGP Identifiers.

ghost use Rattle.std.specs.Prelude.{◌≡◌, ◌<◌, ◌≤◌, ◌==◌, false, [], ◌∷◌, ◌++◌, length, Some, slice_get, position, IfSome, OnOk, OnErr};
ghost use Rattle.rcp_base.specs.Roster.{has_router, has_identifier};

use indexmap::{IndexMap, IndexSet};
use rcp_base::{Addr, Member, NoMemory, RouterId, Slot};
use std::alloc::Global;
use std::marker::Model;

/// The most routers of a roster.
pub const MOST_MEMBERS: usize = 512;

/// The routers in the order of their lines. Contracts see the list of the members.
#[derive(Debug, Drop)]
pub struct Members {
    /// The BGP Identifier of each router ID.
    identifiers: IndexMap<RouterId, Addr>,
    /// The same BGP Identifiers, in the same order.
    taken: IndexSet<Addr>,
}

impl Model for Members {
    ghost use Rattle.std.specs.Prelude.{◌≡◌, ◌≤◌, List, length, map};
    ghost use Rattle.rcp_base.specs.declared.names.Member.{Member};
    ghost use Rattle.roster.specs.Entries.{member_of, identifier_of};

    ghost Value = { List Member };

    ghost view = { λ m. map member_of m.identifiers.entries };

    ghost invariant = { λ m. (m.taken.keys ≡ map identifier_of m.identifiers.entries) × (length m.identifiers.entries ≤ 512) };
}

impl Members {
    /// No router.
    pub fn new(alloc: Global) -> Members
        ensures { result ≡ [] }
    {
        Members {
            identifiers: IndexMap::new(alloc),
            taken: IndexSet::new(alloc),
        }
    }

    pub fn len(&self) -> usize
        ensures len { result ≡ length self.now }
        ensures few { result ≤ 512 }
    {
        self.identifiers.len()
    }

    pub fn get(&self, slot: Slot) -> Member
        requires { slot < length self.now }
        ensures { slice_get self.now slot ≡ Some result }
    {
        let (router, bgp_id) = self.identifiers.get_index(usize::from(slot.0)).unwrap();
        Member {
            router: *router,
            bgp_id: *bgp_id,
        }
    }

    pub fn slot_of(&self, router: RouterId) -> Option<Slot>
        ensures place { result ≡ position (λ member. member.router == router) self.now }
    {
        match self.identifiers.get_index_of(&router) {
            Some(place) => Some(Slot(place as u16)),
            None => None,
        }
    }

    pub fn slot_of_bgp(&self, id: Addr) -> Option<Slot>
        ensures place { result ≡ position (λ member. member.bgp_id == id) self.now }
    {
        match self.taken.get_index_of(&id) {
            Some(place) => Some(Slot(place as u16)),
            None => None,
        }
    }

    pub fn has_router(&self, router: RouterId) -> bool
        ensures { result ≡ has_router self.now router }
    {
        self.identifiers.contains_key(&router)
    }

    pub fn has_identifier(&self, id: Addr) -> bool
        ensures { result ≡ has_identifier self.now id }
    {
        self.taken.contains(&id)
    }

    /// Adds a router after those that are there.
    pub fn push(&mut self, member: Member) -> Result<(), NoMemory>
        requires new_router { has_router self.old member.router ≡ false }
        requires new_identifier { has_identifier self.old member.bgp_id ≡ false }
        requires room { length self.old < 512 }
        ensures ok { OnOk result (self.new ≡ self.old ++ member ∷ []) }
        ensures err { OnErr result (self.new ≡ self.old) }
    {
        match self.taken.insert(member.bgp_id) {
            Ok(_) => match self.identifiers.insert(member.router, member.bgp_id) {
                Ok(_) => Ok(()),
                Err(_) => {
                    self.taken.pop();
                    Err(NoMemory)
                }
            },
            Err(_) => Err(NoMemory),
        }
    }
}
