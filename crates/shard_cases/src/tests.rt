ghost use Rattle.std.specs.Prelude.{◌≡◌, ◌≤◌, ◌<◌, length, nat_lt, IfOk};
ghost use Rattle.rcp_model.specs.Graphs.{AreMembers};

use cost_rows::{Graph, View};
use rcp_base::{Addr, Member, NoMemory, Prefix, RouterId, Slot};
use rcp_model::{Edge, Octets, Route};
use rcs_shard::Shard;
use roster::{Roster, read};
use std::alloc::Global;
use std::sync::Arc;
use std::test::Fail;

mod plain;
mod random;

/// Four routers A, B, C and F.
const ROSTER: &[u8] =
    b"as 65000\nid 10.0.0.254\nshards 1\nhold 90\narea 0.0.0.0\nrouter 10.0.0.1 10.0.0.1\nrouter 10.0.0.2 10.0.0.2\nrouter 10.0.0.3 10.0.0.3\nrouter 10.0.0.4 10.0.0.4\n";

/// ORIGIN IGP, AS_PATH 65001, NEXT_HOP 10.0.0.1 and LOCAL_PREF 100 (RFC 4271 section 4.3).
const ATTRIBUTES: [u8; 25] = [
    64, 1, 1, 0, 64, 2, 4, 2, 1, 253, 233, 64, 3, 4, 10, 0, 0, 1, 64, 5, 4, 0, 0, 0, 100,
];

/// A link from one slot to another, with its cost.
type Link = (u16, u16, u16);

/// What a slot announces: its preference, neighbouring AS and discriminator, and whether the local AS is in the path.
type Offered = (u16, u32, u32, u32, bool);

/// A route whose next hop is its router's own.
fn route(alloc: Global, offered: Offered) -> Result<Route, NoMemory> {
    let octets = Octets::from_slice(alloc, &ATTRIBUTES)?;
    Ok(Route {
        pref: offered.1,
        hops: 1,
        origin: 0,
        neighbour: offered.2,
        med: offered.3,
        looped: offered.4,
        long: false,
        next_hop: Addr(offered.0 as u32),
        attrs: Arc::new(alloc, octets)?,
    })
}

fn edge(link: Link) -> Edge
    ensures { result.cost ≤ 65535 }
{
    Edge {
        from: RouterId(0x0a000001 + link.0 as u32),
        to: RouterId(0x0a000001 + link.1 as u32),
        cost: link.2 as u32,
    }
}

fn graph_of(alloc: Global, links: &[Link]) -> Result<Graph, NoMemory>
    requires { length links.now ≤ 100 }
{
    let mut graph = Graph::new(alloc)?;
    for link in links {
        graph.add(edge(*link))?;
    }
    Ok(graph)
}

/// The members of a roster.
fn members_of(alloc: Global, roster: &Roster) -> Result<Vec<Member>, NoMemory>
    ensures items { IfOk result (λ members. members.items ≡ roster.now.members) }
    ensures distinct { AreMembers roster.now.members }
{
    let mut members = Vec::new(alloc);
    for slot in 0..roster.len() {
        members.push(roster.member(Slot(slot)))?;
    }
    Ok(members)
}

/// The view of these links.
fn view_of(alloc: Global, roster: &Roster, links: &[Link]) -> Result<Arc<View>, NoMemory>
    ensures { IfOk result (λ view. view.value.members ≡ roster.now.members) }
{
    if links.len() > 100 {
        return Err(NoMemory);
    }
    let members = members_of(alloc, roster)?;
    View::build(alloc, &members, graph_of(alloc, links)?)
}

fn shard_of(alloc: Global, links: &[Link]) -> Result<Shard, Fail> {
    let roster = read(alloc, ROSTER)?;
    let view = view_of(alloc, &roster, links)?;
    let mut shard = Shard::new(alloc, &roster, 0, view)?;
    for slot in 0..4 {
        raise(&mut shard, slot);
    }
    Ok(shard)
}

fn is_member(shard: &Shard, slot: u16) -> bool
    ensures { result ≡ nat_lt slot (length shard.now.members) }
{
    (slot as usize) < shard.members().len()
}

fn raise(shard: &mut Shard, slot: u16) {
    if is_member(shard, slot) && !shard.connected(Slot(slot)) {
        shard.up(Slot(slot));
    }
}

fn lower(shard: &mut Shard, slot: u16) {
    if is_member(shard, slot) && shard.connected(Slot(slot)) {
        shard.down(Slot(slot));
    }
}

fn announce(shard: &mut Shard, slot: u16, p: Prefix, route: Route) -> Result<(), NoMemory> {
    if is_member(shard, slot) && shard.connected(Slot(slot)) && shard.owns(p) {
        shard.announce(Slot(slot), p, route)?;
    }
    Ok(())
}

fn withdraw(shard: &mut Shard, slot: u16, p: Prefix) {
    if is_member(shard, slot) && shard.connected(Slot(slot)) && shard.owns(p) {
        shard.withdraw(Slot(slot), p);
    }
}

/// The next hop of what a slot is given.
fn given(shard: &Shard, slot: u16, p: Prefix) -> Option<u32> {
    if !is_member(shard, slot) {
        return None;
    }
    let route = shard.table(Slot(slot), p)?;
    Some(route.next_hop.0)
}

fn all_given(shard: &Shard, p: Prefix) -> [Option<u32>; 4] {
    [
        given(shard, 0, p),
        given(shard, 1, p),
        given(shard, 2, p),
        given(shard, 3, p),
    ]
}

fn next_offer(shard: &mut Shard, slot: u16) -> Option<Prefix> {
    if !is_member(shard, slot) {
        return None;
    }
    shard.take_offer(Slot(slot))
}

fn prefix(n: u32) -> Result<Prefix, Fail> {
    Ok(Prefix::new(0xcb00_7100 + n % 16 * 256, 24).ok_or("length")?)
}

/// What the four slots are given once a prefix is decided.
fn decided(alloc: Global, links: &[Link], offered: &[Offered]) -> Result<[Option<u32>; 4], Fail> {
    let p = prefix(0)?;
    let mut shard = shard_of(alloc, links)?;
    for one in offered {
        announce(&mut shard, one.0, p, route(alloc, *one)?)?;
    }
    if shard.work() != Some(p) || shard.pending() != 0 {
        return Err("not worked".into());
    }
    Ok(all_given(&shard, p))
}

/// A to B, B to C and B to F, in both directions.
const LINKED: [Link; 6] = [
    (0, 1, 1),
    (1, 0, 1),
    (1, 2, 30),
    (2, 1, 30),
    (1, 3, 5),
    (3, 1, 5),
];

const PAIR: [Link; 2] = [(0, 1, 10), (1, 0, 10)];

const LINE: [Link; 4] = [(0, 1, 10), (1, 0, 10), (1, 2, 10), (2, 1, 10)];

#[test]
fn discriminators_are_compared_among_one_neighbour(rt: HostRuntime) -> Result<(), Fail> {
    let offered = [
        (0, 100, 65001, 20, false),
        (2, 100, 65001, 10, false),
        (3, 100, 65002, 50, false),
    ];
    let want = [Some(3), Some(3), None, None];
    assert_eq!(rt; decided(rt.alloc(), &LINKED, &offered)?, want);
    Ok(())
}

#[test]
fn an_outsider_removes_no_route(rt: HostRuntime) -> Result<(), Fail> {
    let offered = [(0, 100, 65001, 0, false), (2, 200, 65001, 0, false)];
    let want = [None, Some(0), None, None];
    assert_eq!(rt; decided(rt.alloc(), &PAIR, &offered)?, want);
    Ok(())
}

#[test]
fn a_looped_route_is_kept_and_no_candidate(rt: HostRuntime) -> Result<(), Fail> {
    let offered = [(0, 100, 65001, 0, true)];
    assert_eq!(rt; decided(rt.alloc(), &LINKED, &offered)?, [None; 4]);
    Ok(())
}

#[test]
fn a_lone_router_is_given_nothing(rt: HostRuntime) -> Result<(), Fail> {
    let offered = [(0, 100, 65001, 0, false)];
    let want = [None, Some(0), None, None];
    assert_eq!(rt; decided(rt.alloc(), &PAIR, &offered)?, want);
    Ok(())
}

/// A and C announce the same to B between them, which chooses A for its identifier.
fn tie(alloc: Global) -> Result<(Shard, Prefix), Fail> {
    let p = prefix(0)?;
    let mut shard = shard_of(alloc, &LINE)?;
    announce(&mut shard, 0, p, route(alloc, (0, 100, 65001, 0, false))?)?;
    announce(&mut shard, 2, p, route(alloc, (2, 100, 65001, 0, false))?)?;
    if shard.work() != Some(p) || given(&shard, 1, p) != Some(0) {
        return Err("no tie".into());
    }
    Ok((shard, p))
}

#[test]
fn a_lost_session_takes_its_routes_along(rt: HostRuntime) -> Result<(), Fail> {
    let (mut shard, p) = tie(rt.alloc())?;
    assert_eq!(rt; next_offer(&mut shard, 1), Some(p));
    assert_eq!(rt; next_offer(&mut shard, 1), None);
    lower(&mut shard, 0);
    assert_eq!(rt; shard.least_pending(), Some(p));
    assert_eq!(rt; given(&shard, 1, p), Some(0));
    assert_eq!(rt; shard.work(), Some(p));
    assert_eq!(rt; all_given(&shard, p), [None, Some(2), None, None]);
    assert_eq!(rt; next_offer(&mut shard, 1), Some(p));
    assert!(rt; shard.announcement(Slot(0), p).is_none());
    assert_eq!(rt; shard.next_prefix(None), Some(p));
    Ok(())
}

#[test]
fn a_cost_that_rises_makes_a_prefix_pending(rt: HostRuntime) -> Result<(), Fail> {
    let (mut shard, p) = tie(rt.alloc())?;
    let roster = read(rt.alloc(), ROSTER)?;
    let dearer = [(0, 1, 11), (1, 0, 11), (1, 2, 10), (2, 1, 10)];
    let view = view_of(rt.alloc(), &roster, &dearer)?;
    assert!(rt; shard.members() == view.members());
    change(&mut shard, view);
    assert!(rt; shard.is_pending(p));
    assert_eq!(rt; given(&shard, 1, p), Some(0));
    assert_eq!(rt; shard.work(), Some(p));
    assert_eq!(rt; given(&shard, 1, p), Some(2));
    Ok(())
}

/// Takes a view of the same members.
fn change(shard: &mut Shard, view: Arc<View>) {
    if shard.members() == view.members() {
        shard.view(view);
    }
}
