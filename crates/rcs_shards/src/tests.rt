//! A roster of two shards: what is announced in the one and in the other is sent together.

ghost use Rattle.std.specs.Prelude.{◌≡◌, ◌≤◌, ◌<◌, length, nat_lt, IfOk};
ghost use Rattle.rcp_model.specs.Graphs.{AreMembers};
ghost use Rattle.rcp_model.specs.Telling.{IsRouteOf};

use crate::{InThreads, InTurn, Messages, Shards};
use cost_rows::{Graph, View};
use rcp_base::{Addr, Member, NoMemory, Prefix, RouterId, Slot};
use rcp_model::{Edge, Octets, Route};
use roster::{Roster, read};
use std::alloc::Global;
use std::sync::Arc;
use std::test::Fail;
use std::thread::Threads;

/// Routers A, B and C in two shards: the prefixes of 24 bits are in the shard of their third octet's last bit.
const ROSTER: &[u8] =
    b"as 65000\nid 10.0.0.254\nshards 2\nhold 90\narea 0.0.0.0\nrouter 10.0.0.1 10.0.0.1\nrouter 10.0.0.2 10.0.0.2\nrouter 10.0.0.3 10.0.0.3\n";

/// ORIGIN IGP, AS_PATH 65001, NEXT_HOP 10.0.0.1 and LOCAL_PREF 100 (RFC 4271 section 4.3).
const ATTRIBUTES: [u8; 25] = [
    64, 1, 1, 0, 64, 2, 4, 2, 1, 253, 233, 64, 3, 4, 10, 0, 0, 1, 64, 5, 4, 0, 0, 0, 100,
];

const A: u16 = 0;

const B: u16 = 1;

const C: u16 = 2;

/// A link from one slot to another, with its cost.
type Link = (u16, u16, u16);

/// A triangle, of which each link costs 10.
const TRIANGLE: [Link; 6] = [
    (0, 1, 10),
    (1, 0, 10),
    (1, 2, 10),
    (2, 1, 10),
    (0, 2, 10),
    (2, 0, 10),
];

/// The route of these attributes.
fn route(alloc: Global) -> Result<Route, NoMemory>
    ensures { IfOk result (λ route. IsRouteOf 65000 route) }
{
    let octets = Octets::from_slice(alloc, &ATTRIBUTES)?;
    Ok(Route {
        pref: 100,
        hops: 1,
        origin: 0,
        neighbour: 65001,
        med: 0,
        looped: false,
        long: false,
        next_hop: Addr(0x0a000001),
        attrs: Arc::new(alloc, octets)?,
    })
}

fn edge(link: Link) -> Edge
    ensures { result.cost ≤ 65535 }
{
    Edge {
        from: RouterId(0x0a000001 + u32::from(link.0)),
        to: RouterId(0x0a000001 + u32::from(link.1)),
        cost: u32::from(link.2),
    }
}

fn graph_of(alloc: Global, links: &[Link]) -> Result<Graph, NoMemory>
    requires { length links.now ≤ 100 }
{
    let mut graph = Graph::new(alloc)?;
    for link in links {
        graph.add(edge(*link))?;
    }
    Ok(graph)
}

/// The members of a roster.
fn members_of(alloc: Global, roster: &Roster) -> Result<Vec<Member>, NoMemory>
    ensures items { IfOk result (λ members. members.items ≡ roster.now.members) }
    ensures distinct { AreMembers roster.now.members }
{
    let mut members = Vec::new(alloc);
    for slot in 0..roster.len() {
        members.push(roster.member(Slot(slot)))?;
    }
    Ok(members)
}

/// The view of these links.
fn view_of(alloc: Global, roster: &Roster, links: &[Link]) -> Result<Arc<View>, NoMemory>
    ensures { IfOk result (λ view. view.value.members ≡ roster.now.members) }
{
    if links.len() > 100 {
        return Err(NoMemory);
    }
    let members = members_of(alloc, roster)?;
    View::build(alloc, &members, graph_of(alloc, links)?)
}

/// The shards over the triangle, with all three routers connected.
fn shards(alloc: Global) -> Result<Shards, Fail> {
    let roster = read(alloc, ROSTER)?;
    let view = view_of(alloc, &roster, &TRIANGLE)?;
    let mut shards = Shards::new(alloc, roster, view)?;
    for slot in 0..3 {
        up(&mut shards, slot);
    }
    Ok(shards)
}

fn is_member(shards: &Shards, slot: u16) -> bool
    ensures { result ≡ nat_lt slot (length shards.now.roster.members) }
{
    slot < shards.members()
}

fn up(shards: &mut Shards, slot: u16) {
    if is_member(shards, slot) {
        shards.up(Slot(slot));
    }
}

fn down(shards: &mut Shards, slot: u16) {
    if is_member(shards, slot) {
        shards.down(Slot(slot));
    }
}

fn announce(shards: &mut Shards, alloc: Global, slot: u16, third: u32) -> Result<(), Fail> {
    let p = prefix(third)?;
    if is_member(shards, slot) && shards.roster().as_number() == 65000 {
        shards.announce(Slot(slot), p, route(alloc)?)?;
    }
    Ok(())
}

fn withdraw(shards: &mut Shards, slot: u16, third: u32) -> Result<(), Fail> {
    let p = prefix(third)?;
    if is_member(shards, slot) {
        shards.withdraw(Slot(slot), p);
    }
    Ok(())
}

/// 198.51.THIRD.0/24.
fn prefix(third: u32) -> Result<Prefix, Fail> {
    if third > 255 {
        return Err(Fail::from("an octet"));
    }
    Ok(Prefix::new(0xc633_0000 + third * 256, 24).ok_or("a prefix")?)
}

/// The only message to a router: the octets after its marker.
fn one(messages: &Messages) -> &[u8] {
    match messages.first() {
        Some(message) if messages.len() == 1 && message.len() > 16 => &message[16..],
        _ => &[],
    }
}

/// The UPDATEs of all pending prefixes, to a slot alone.
fn drain_to(shards: &mut Shards, slot: u16) -> Result<Messages, Fail> {
    if !is_member(shards, slot) {
        return Err(Fail::from("a member"));
    }
    let mut lists = shards.work_all(&InTurn, &[Slot(slot)])?;
    Ok(lists.pop().ok_or("a list")?)
}

/// The same, by threads.
fn drain_by_threads<R: Threads + Sync>(
    rt: &R,
    shards: &mut Shards,
    slot: u16,
) -> Result<Messages, Fail> {
    if !is_member(shards, slot) {
        return Err(Fail::from("a member"));
    }
    let mut lists = shards.work_all(&InThreads { threads: rt }, &[Slot(slot)])?;
    Ok(lists.pop().ok_or("a list")?)
}

/// The UPDATEs of so many pending prefixes of a shard, to a slot alone.
fn slice_to(shards: &mut Shards, number: u16, count: u32, slot: u16) -> Result<Messages, Fail> {
    if !is_member(shards, slot) {
        return Err(Fail::from("a member"));
    }
    let mut lists = shards.work_least(number, count, &[Slot(slot)])?;
    Ok(lists.pop().ok_or("a list")?)
}

// The UPDATE that announces 198.51.0.0/24 and 198.51.1.0/24 with the attributes, after its marker.
const ANNOUNCED: &[u8] = &[
    0, 56, 2, 0, 0, 0, 25, 64, 1, 1, 0, 64, 2, 4, 2, 1, 253, 233, 64, 3, 4, 10, 0, 0, 1, 64, 5, 4,
    0, 0, 0, 100, 24, 198, 51, 0, 24, 198, 51, 1,
];

// The one that announces 198.51.1.0/24 alone.
const ONE_ANNOUNCED: &[u8] = &[
    0, 52, 2, 0, 0, 0, 25, 64, 1, 1, 0, 64, 2, 4, 2, 1, 253, 233, 64, 3, 4, 10, 0, 0, 1, 64, 5, 4,
    0, 0, 0, 100, 24, 198, 51, 1,
];

// The one that withdraws both.
const WITHDRAWN: &[u8] = &[0, 31, 2, 0, 8, 24, 198, 51, 0, 24, 198, 51, 1, 0, 0];

/// A announces 198.51.1.0/24 and 198.51.0.0/24.
fn announced(alloc: Global) -> Result<Shards, Fail> {
    let mut shards = shards(alloc)?;
    announce(&mut shards, alloc, A, 1)?;
    announce(&mut shards, alloc, A, 0)?;
    Ok(shards)
}

#[test]
fn cells_of_both_shards_are_sent_by_prefix(rt: HostRuntime) -> Result<(), Fail> {
    let alloc = rt.alloc();
    let mut shards = announced(alloc)?;
    assert_eq!(rt; one(&drain_to(&mut shards, B)?), ANNOUNCED);
    Ok(())
}

#[test]
fn threads_send_what_one_thread_sends(rt: HostRuntime) -> Result<(), Fail> {
    let mut shards = announced(rt.alloc())?;
    assert_eq!(rt; one(&drain_by_threads(&rt, &mut shards, B)?), ANNOUNCED);
    assert_eq!(rt; shards.pending(), 0);
    Ok(())
}

#[test]
fn a_router_is_not_sent_its_own_routes(rt: HostRuntime) -> Result<(), Fail> {
    let alloc = rt.alloc();
    let mut shards = announced(alloc)?;
    assert!(rt; drain_to(&mut shards, A)?.is_empty());
    Ok(())
}

#[test]
fn what_stays_is_not_sent_again(rt: HostRuntime) -> Result<(), Fail> {
    let alloc = rt.alloc();
    let mut shards = announced(alloc)?;
    drain_to(&mut shards, A)?;
    announce(&mut shards, alloc, A, 0)?;
    assert!(rt; drain_to(&mut shards, B)?.is_empty());
    Ok(())
}

#[test]
fn a_slice_works_its_shard_alone(rt: HostRuntime) -> Result<(), Fail> {
    let alloc = rt.alloc();
    let mut shards = announced(alloc)?;
    assert_eq!(rt; one(&slice_to(&mut shards, 1, 9, C)?), ONE_ANNOUNCED);
    assert_eq!(rt; shards.pending(), 1);
    assert!(rt; shards.is_pending(prefix(0)?));
    assert!(rt; slice_to(&mut shards, 2, 9, C)?.is_empty());
    assert_eq!(rt; shards.pending(), 1);
    Ok(())
}

#[test]
fn a_lost_session_is_withdrawn_from_both_shards(rt: HostRuntime) -> Result<(), Fail> {
    let alloc = rt.alloc();
    let mut shards = announced(alloc)?;
    drain_to(&mut shards, B)?;
    down(&mut shards, A);
    assert_eq!(rt; shards.connected_count(), 2);
    assert_eq!(rt; shards.announced_count(), 0);
    assert_eq!(rt; one(&drain_to(&mut shards, B)?), WITHDRAWN);
    Ok(())
}

#[test]
fn a_slot_without_a_session_changes_nothing(rt: HostRuntime) -> Result<(), Fail> {
    let alloc = rt.alloc();
    let mut shards = announced(alloc)?;
    drain_to(&mut shards, B)?;
    down(&mut shards, C);
    down(&mut shards, C);
    announce(&mut shards, alloc, C, 7)?;
    withdraw(&mut shards, C, 7)?;
    assert_eq!(rt; shards.pending(), 0);
    assert_eq!(rt; shards.connected_count(), 2);
    assert_eq!(rt; shards.announced_count(), 2);
    Ok(())
}
