//! Where the dirty cells of a slot are read: at the next one of each shard.

ghost use Rattle.std.specs.Prelude.{◌≡◌, ℕ, ◌<◌, List, length, All, IfOk, IfSome, None, Option, true};
ghost use Rattle.rcp_base.specs.IpPrefix.{IpPrefix};
ghost use Rattle.rcp_model.specs.Assigned.{IsLeast};
ghost use Rattle.rcp_model.specs.Routes.{is_usable};
ghost use Rattle.rcs_shard.specs.Shards.{ShardOf, IsNextDirty, given_at};
ghost use Rattle.rcs_shards.specs.Least.{HasSome};
ghost use Rattle.rcs_shards.specs.Dirty.{AreReady};
ghost use Rattle.rcs_shards.specs.Fronts.{route_of, IsLeftAt, AreLeast, AreFronts};

use crate::least::lesser;
use rcp_base::{NoMemory, Prefix, Slot};
use rcp_model::Route;
use rcs_shard::Shard;
use roster::Roster;
use std::alloc::Global;

/// For each shard the next dirty cell of a slot: its prefix, and the route that the slot is given there.
#[derive(Drop)]
pub(crate) struct Cursors<'a> {
    pub(crate) prefixes: Vec<Option<Prefix>>,
    pub(crate) routes: Vec<Option<&'a Route>>,
    /// How many cells of each shard were read.
    pub(crate) passed: Vec<usize>,
    /// The prefix of the cell that was read last.
    pub(crate) last: Option<Prefix>,
}

/// Cursors for so many shards.
pub(crate) fn new_cursors<'a>(alloc: Global, count: usize) -> Result<Cursors<'a>, NoMemory>
    ensures prefixes { IfOk result (λ cursors. length cursors.prefixes.items ≡ count) }
    ensures routes { IfOk result (λ cursors. length cursors.routes.items ≡ count) }
    ensures passed { IfOk result (λ cursors. length cursors.passed.items ≡ count) }
{
    let prefixes = vec![in alloc; None; count]?;
    let routes = vec![in alloc; None; count]?;
    let passed = vec![in alloc; 0; count]?;
    Ok(Cursors {
        prefixes,
        routes,
        passed,
        last: None,
    })
}

/// Finds the least dirty cell of a slot in each of the shards at some places.
pub(crate) fn find_fronts<'a>(
    roster: &Roster,
    shards: &'a [Shard],
    busy: &[usize],
    slot: Slot,
    cursors: &mut Cursors<'a>,
)
    requires ready { AreReady roster.now shards.now }
    requires within { All (λ n. n < length shards.now) busy.now }
    requires member { slot < length roster.now.members }
    requires prefixes { length cursors.old.prefixes.items ≡ length shards.now }
    requires routes { length cursors.old.routes.items ≡ length shards.now }
    requires passed { length cursors.old.passed.items ≡ length shards.now }
    ensures fronts { AreFronts shards.now busy.now slot None cursors.new.prefixes.items cursors.new.routes.items }
    ensures passed { length cursors.new.passed.items ≡ length shards.now }
    ensures last { cursors.new.last ≡ None }
{
    cursors.last = None;
    for place in busy {
        let (prefix, route) = next_front(&shards[*place], slot, None, 0);
        cursors.prefixes[*place] = prefix;
        cursors.routes[*place] = route;
        cursors.passed[*place] = 0;
    }
}

/// The least dirty cell of a slot in a shard after the given prefix, up to which so many were read.
pub(crate) fn next_front<'a>(
    shard: &'a Shard,
    slot: Slot,
    after: Option<Prefix>,
    passed: usize,
) -> (Option<Prefix>, Option<&'a Route>)
    requires { slot < length shard.now.members }
    ensures next { IsNextDirty shard.now slot after result.0 }
    ensures route { IfSome result.0 (λ p. route_of result.1 ≡ given_at shard.now slot p) }
    ensures usable { IfSome result.1 (λ route. is_usable route.now ≡ true) }
{
    match shard.next_dirty(slot, after, passed) {
        Some((prefix, route)) => (Some(prefix), route),
        None => (None, None),
    }
}

/// The least of the prefixes at these places.
pub(crate) fn least(busy: &[usize], prefixes: &[Option<Prefix>]) -> Option<Prefix>
    requires { All (λ n. n < length prefixes.now) busy.now }
    ensures { (shards : List ShardOf) (slot : ℕ) (after : Option IpPrefix) → AreLeast shards busy.now slot after prefixes.now → IsLeast (HasSome (IsLeftAt shards slot after) busy.now) result }
{
    let mut found = None;
    for place in busy {
        found = lesser(found, prefixes[*place]);
    }
    found
}
