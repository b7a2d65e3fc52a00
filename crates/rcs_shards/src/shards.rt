//! The shards, and the events that change them.

ghost use Rattle.std.specs.Prelude.{◌≡◌, ◌<◌, ◌≤◌, length, Some, None, IfOk, OnOk, OnErr};
ghost use Rattle.rcp_model.specs.ServerRibs.{Up, Down, Change, Links};
ghost use Rattle.rcp_model.specs.Telling.{IsRouteOf};
ghost use Rattle.rcs_shards.specs.Servers.{new_server, acted};
ghost use Rattle.rcs_shards.specs.News.{AreNew};

use crate::events::{classes_of, down_each, up_each, view_each};
use cost_rows::View;
use rcp_base::{NoMemory, Prefix, Slot};
use rcp_model::Route;
use rcs_shard::{Shard, moved_slots};
use roster::Roster;
use std::alloc::Global;
use std::marker::Model;
use std::sync::Arc;

/// All shards of the route control server of a roster. Contracts see the roster, and the server of each shard by number.
#[derive(Drop)]
pub struct Shards {
    pub(crate) roster: Roster,
    pub(crate) view: Arc<View>,
    pub(crate) shards: Vec<Shard>,
    /// How many slots are connected.
    pub(crate) connected: u64,
    pub(crate) alloc: Global,
}

impl Model for Shards {
    ghost use Rattle.rcs_shards.specs.Servers.{ServerOf, server_code};

    ghost Value = { ServerOf };

    ghost coded = { server_code };

    ghost use Rattle.rcs_shards.specs.Joins.{server_of, AreTogether};

    ghost view = { λ s. server_of s.roster s.shards.items };

    ghost invariant = { λ s. AreTogether s.roster s.view.value s.connected s.shards.items };
}

impl Shards {
    /// The shards of a roster, each with this view. No slot is connected and nothing is announced.
    ///
    /// The view's members are the roster's, in order. `NoMemory` where there was no room for the shards.
    pub fn new(alloc: Global, roster: Roster, view: Arc<View>) -> Result<Shards, NoMemory>
        requires members { view.value.members ≡ roster.members }
        ensures { IfOk result (λ shards. shards ≡ new_server roster view.value.edges) }
    {
        let shards = new_shards(alloc, &roster, &view)?;
        Ok(Shards {
            roster,
            view,
            shards,
            connected: 0,
            alloc,
        })
    }

    /// The router of a slot has a session that is established. All announced prefixes are pending then, and the slot is given nothing.
    pub fn up(&mut self, slot: Slot)
        requires member { slot < length self.old.roster.members }
        ensures { self.new ≡ acted (Up slot) self.old }
    {
        let more = u64::from(!self.connected(slot));
        self.connected += more;
        up_each(&mut self.shards, slot);
    }

    /// The router of a slot has no session any more: it announces nothing and is given nothing. All prefixes that it announced are
    /// pending then. Where the slot isn't connected, nothing changes.
    pub fn down(&mut self, slot: Slot)
        requires member { slot < length self.old.roster.members }
        ensures { self.new ≡ acted (Down slot) self.old }
    {
        if !self.connected(slot) {
            return;
        }
        self.connected -= 1;
        down_each(&mut self.shards, slot);
    }

    /// A slot announces a route for a prefix, in the place of the one before. Where that is another one, the prefix is pending. Where the slot isn't
    /// connected, nothing changes.
    ///
    /// The route has the fields of its octets in the roster's AS. `NoMemory` where there was no room for the announcement or for the
    /// cells of a new prefix; the shards are as before then.
    pub fn announce(&mut self, slot: Slot, p: Prefix, route: Route) -> Result<(), NoMemory>
        requires member { slot < length self.old.roster.members }
        requires fields { IsRouteOf self.old.roster.as_number route }
        ensures after { OnOk result (self.new ≡ acted (Change slot p (Some route)) self.old) }
        ensures err { OnErr result (self.new ≡ self.old) }
    {
        if !self.connected(slot) {
            return Ok(());
        }
        let number = self.number_of(p);
        self.shards[number].announce(slot, p, route)?;
        Ok(())
    }

    /// A slot announces nothing for a prefix any more. Where it did, the prefix is pending.
    pub fn withdraw(&mut self, slot: Slot, p: Prefix)
        requires member { slot < length self.old.roster.members }
        ensures { self.new ≡ acted (Change slot p None) self.old }
    {
        if !self.connected(slot) {
            return;
        }
        let number = self.number_of(p);
        self.shards[number].withdraw(slot, p);
    }

    /// Takes another view, of the same members: each shard learns of its edges. The prefixes of each router to which the cost from some router
    /// changes are pending then.
    ///
    /// `NoMemory` where there was no room for a copy of the pointer for each shard or for the classes of the members; the shards are as before then. It
    /// compares the costs between all members once, and in each shard it goes over the announcements of those to whom one changes.
    pub fn set_view(&mut self, view: Arc<View>) -> Result<(), NoMemory>
        requires { view.value.members ≡ self.old.roster.members }
        ensures after { OnOk result (self.new ≡ acted (Links view.value.edges) self.old) }
        ensures err { OnErr result (self.new ≡ self.old) }
    {
        let moved = moved_slots(&self.view, &view);
        let classes = classes_of(self.alloc, &view)?;
        view_each(self.alloc, &mut self.shards, &view, &moved, &classes)?;
        self.view = view;
        Ok(())
    }
}

/// The shards of a roster, each with this view.
fn new_shards(alloc: Global, roster: &Roster, view: &Arc<View>) -> Result<Vec<Shard>, NoMemory>
    requires { view.now.value.members ≡ roster.now.members }
    ensures new { IfOk result (λ shards. AreNew roster.now view.now.value.edges roster.now.shards shards.items) }
    ensures some { 1 ≤ roster.now.shards }
    ensures few { length roster.now.members ≤ 512 }
{
    // A roster's length is known to be small once it is read.
    prove!(roster.len() <= 512);
    let mut shards = Vec::new(alloc);
    for number in 0..roster.shards() {
        shards.push(Shard::new(alloc, roster, number, view.clone()?)?)?;
    }
    Ok(shards)
}
