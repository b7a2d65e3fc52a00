//! The store: routes by number in a slab, and beside it the number of each route.

ghost use Rattle.std.specs.Prelude.{◌≡◌, ◌≢◌, ◌<◌, ◌==◌, ℕ, Some, None, Ok, IfOk, OnErr, IfSome};
ghost use Rattle.std.specs.FinMap as map_of;
ghost use Rattle.attr_store.specs.Kept.{KeptRoutes, route_at, IsLive, HasEachOnce, used, retained, released, one_more, one_less};
ghost use Rattle.slab.specs.Slab.{get, ContainsKey, SameValues, Updates};
ghost use Rattle.std.specs.HashMap as hash;
ghost use Rattle.attr_store.specs.SameRoutes.{same_route};
ghost use Rattle.attr_store.specs.Joined.{IsJoined};

use crate::kept::KeptRoute;
use crate::key::RouteKey;
use rcp_base::NoMemory;
use rcp_model::{Route, RouteNo};
use slab::Slab;
use std::alloc::Global;
use std::collections::HashMap;
use std::marker::Model;

/// Routes kept once. Contracts see a finite map from each live number to its route and the count of its uses.
#[derive(Drop)]
pub struct AttrStore {
    kept: Slab<KeptRoute>,
    numbers: HashMap<RouteKey, RouteNo>,
}

impl Model for AttrStore {
    ghost use Rattle.attr_store.specs.Kept.{KeptRoutes, kept_routes_code};
    ghost use Rattle.attr_store.specs.Joined.{kept_routes, IsJoined};

    ghost Value = { KeptRoutes };

    ghost coded = { kept_routes_code };

    ghost view = { λ s. kept_routes s.kept };

    ghost invariant = { λ s. IsJoined s.kept s.numbers };
}

impl AttrStore {
    /// A store without routes. It takes no memory.
    pub fn new(alloc: Global) -> AttrStore
        ensures { result ≡ map_of.empty }
    {
        AttrStore {
            kept: Slab::new(alloc),
            numbers: HashMap::new(alloc),
        }
    }

    /// The number of a route, with one use more: its own where an equal route is there, else one that isn't live.
    ///
    /// `NoMemory` comes where an equal route isn't there and there was no room for it, or no number below 2^32 - 1 is left.
    ///
    /// For a route that is there it costs one look-up, which hashes the octets of the path attributes.
    pub fn intern(&mut self, route: Route) -> Result<RouteNo, NoMemory>
        ensures kept { IfOk result (λ n. self.new ≡ used self.old n route) }
        ensures own { IfOk result (λ n. IfSome (route_at self.old n) (λ r. r ≡ route)) }
        ensures once { HasEachOnce self.new }
        ensures known { (n : ℕ) → route_at self.old n ≡ Some route → result ≡ Ok n }
        ensures err { OnErr result (self.new ≡ self.old) }
    {
        let key = RouteKey { route };
        match self.numbers.get(&key) {
            Some(number) => {
                let number = *number;
                add_use(&mut self.kept, number.number());
                Ok(number)
            }
            None => add(&mut self.kept, &mut self.numbers, key),
        }
    }

    /// One use more of a route. The number is live. It takes no memory, and costs one access by index.
    pub fn retain(&mut self, n: RouteNo)
        requires { IsLive self.old n }
        ensures { self.new ≡ retained self.old n }
    {
        add_use(&mut self.kept, n.number());
    }

    /// One use less of a route, which goes with its last use. The number is live. It takes no memory, and costs
    /// one access by index, and for a last use one look-up.
    pub fn release(&mut self, n: RouteNo)
        requires { IsLive self.old n }
        ensures { self.new ≡ released self.old n }
    {
        let number = n.number();
        if !end_use(&mut self.kept, number) {
            return;
        }
        let KeptRoute { route, uses: _ } = self.kept.remove(number);
        self.numbers.remove(&RouteKey { route });
    }

    /// The route of a number that is live.
    pub fn get(&self, n: RouteNo) -> &Route
        requires { IsLive self.now n }
        ensures route { route_at self.now n ≡ Some result.now }
        ensures once { HasEachOnce self.now }
    {
        match self.kept.get(n.number()) {
            Some(kept) => &kept.route,
            None => unreachable!(),
        }
    }
}

/// Keeps a route that isn't there, with one use. What can fail comes first.
fn add(
    kept: &mut Slab<KeptRoute>,
    numbers: &mut HashMap<RouteKey, RouteNo>,
    key: RouteKey,
) -> Result<RouteNo, NoMemory>
    requires absent { hash.get same_route numbers.old key ≡ None }
    requires joined { IsJoined kept.old numbers.old }
    ensures joined { IsJoined kept.new numbers.new }
    ensures kept { IfOk result (λ n. Updates kept.old kept.new n (Some (record { route = key; uses = 1 }))) }
    ensures vacant { IfOk result (λ n. get kept.old n ≡ None) }
    ensures err { OnErr result (SameValues kept.old kept.new) }
{
    let Ok(route) = key.route.clone() else {
        return Err(NoMemory);
    };
    let Some(number) = RouteNo::new(kept.vacant_key()) else {
        return Err(NoMemory);
    };
    if kept.reserve(1).is_err() {
        return Err(NoMemory);
    }
    let Ok(_before) = numbers.insert(key, number) else {
        return Err(NoMemory);
    };
    kept.insert_reserved(KeptRoute { route, uses: 1 });
    Ok(number)
}

/// One use more of the route at a number.
fn add_use(kept: &mut Slab<KeptRoute>, number: usize)
    requires { ContainsKey kept.old number }
    ensures { IfSome (get kept.old number) (λ k. Updates kept.old kept.new number (Some (record k { uses = one_more k.uses }))) }
{
    if let Some(kept) = kept.get_mut(number) {
        kept.uses = kept.uses.saturating_add(1);
    }
}

/// One use less of the route at a number, but for a last use, of which it answers true and which it leaves.
fn end_use(kept: &mut Slab<KeptRoute>, number: usize) -> bool
    requires live { ContainsKey kept.old number }
    requires in_use { IfSome (get kept.old number) (λ k. 0 < k.uses) }
    ensures last { IfSome (get kept.old number) (λ k. result ≡ (k.uses == 1)) }
    ensures less { IfSome (get kept.old number) (λ k. Updates kept.old kept.new number (Some (record k { uses = one_less k.uses }))) }
{
    let Some(kept) = kept.get_mut(number) else {
        return false;
    };
    if kept.uses == 1 {
        return true;
    }
    if kept.uses != u32::MAX {
        kept.uses -= 1;
    }
    false
}
