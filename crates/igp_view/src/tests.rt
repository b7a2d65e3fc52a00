//! Streams of link state, cut and timed in many ways, and the views over them.

ghost use Rattle.std.specs.Prelude.{◌<◌};

use crate::{IgpGot, IgpView};
use cost_rows::View;
use lsa_reader::{Lsa, LsaLink, POINT_TO_POINT, write};
use rcp_base::{NoMemory, RouterId, Slot};
use rcp_model::Costs;
use roster::{Roster, read};
use std::alloc::Global;
use std::sync::Arc;
use std::test::Fail;

/// Three routers, no link, area 0.
const BARE: &[u8] =
    b"as 65000\nid 10.0.0.254\nshards 2\nhold 90\narea 0.0.0.0\nrouter 10.0.0.1 10.0.0.1\nrouter 10.0.0.2 10.0.0.2\nrouter 10.0.0.3 10.0.0.3\n";

/// The same, and a link of its own.
const LINKED: &[u8] =
    b"as 65000\nid 10.0.0.254\nshards 2\nhold 90\narea 0.0.0.0\nrouter 10.0.0.1 10.0.0.1\nrouter 10.0.0.2 10.0.0.2\nrouter 10.0.0.3 10.0.0.3\nlink 10.0.0.1 10.0.0.3 7\n";

const A: u32 = 0x0a00_0001;

const B: u32 = 0x0a00_0002;

const C: u32 = 0x0a00_0003;

/// A router ID and a metric.
type Link = (u32, u16);

/// A router, and the age and the sequence number of its LSA.
type Instance = (u32, u16, i32);

/// A roster's text is short.
fn roster_of(alloc: Global, text: &[u8]) -> Result<Roster, Fail> {
    if text.len() > 65536 {
        return Err("a long text".into());
    }
    Ok(read(alloc, text).map_err(|_| "a roster")?)
}

/// The LSA of a router with point-to-point links.
fn lsa(alloc: Global, instance: Instance, links: &[Link]) -> Result<Lsa, NoMemory> {
    let (router, age, sequence) = instance;
    let links = links
        .iter()
        .map(|link| LsaLink {
            id: link.0,
            kind: POINT_TO_POINT,
            metric: link.1,
        })
        .collect(alloc)?;
    Ok(Lsa {
        router: RouterId(router),
        age,
        sequence,
        checksum: 0,
        links,
    })
}

/// Adds a packet of an area to a stream: an update with the LSA of a router.
fn add_update(
    alloc: Global,
    stream: &mut Vec<u8>,
    area: u8,
    instance: Instance,
    links: &[Link],
) -> Result<(), Fail> {
    let lsa = lsa(alloc, instance, links)?;
    if lsa.age > 3600 || lsa.links.len() > 5459 {
        return Err("too much for an LSA".into());
    }
    let mut octets = [0; 200];
    let len = write(&lsa, &mut octets).ok_or("room")?;
    let (front, _) = octets.split_at(len);
    stream.extend_from_slice(&[2, 4, 0, (28 + len % 200) as u8])?;
    stream.extend_from_slice(&[0, 0, 0, 0, 0, 0, 0, area])?;
    stream.extend_from_slice(&[0; 15])?;
    stream.push(1)?;
    stream.extend_from_slice(front)?;
    Ok(())
}

/// A stream of one packet of area 0, with the LSA of a router.
fn update(alloc: Global, instance: Instance, links: &[Link]) -> Result<Vec<u8>, Fail> {
    let mut stream = Vec::new(alloc);
    add_update(alloc, &mut stream, 0, instance, links)?;
    Ok(stream)
}

/// Three routers in a row, of which the last lists these links.
fn row(alloc: Global, last: &[Link]) -> Result<Vec<u8>, Fail> {
    let mut stream = update(alloc, (A, 1, 1), &[(B, 10)])?;
    add_update(alloc, &mut stream, 0, (B, 1, 1), &[(A, 10), (C, 10)])?;
    add_update(alloc, &mut stream, 0, (C, 1, 1), last)?;
    Ok(stream)
}

/// What comes: octets of the stream or the time alone, each at a time in seconds, or a new stream.
#[derive(Clone, Copy)]
enum Event<'a> {
    Octets(&'a [u8], u64),
    Clock(u64),
    Restart,
}

/// The costs from each of the three members to each, by slot.
type CostTable = [[Option<u32>; 3]; 3];

/// What an event brings, and after it: how often the edges changed, the costs, and whether the rankings are as those of a view that is built over the same graph.
#[derive(Clone, Copy)]
struct Answer {
    got: IgpGot,
    changes: u64,
    costs: CostTable,
    ranked_as_built: bool,
}

fn costs_of(view: &View) -> CostTable {
    [0, 1, 2].map(|from| [0, 1, 2].map(|to| view.cost(Slot(from), Slot(to))))
}

/// Whether the rankings are those of a view that is built over the graph.
fn is_ranked_as_built(alloc: Global, view: &View) -> Result<bool, NoMemory> {
    let anew = View::build(alloc, view.members(), view.graph().try_clone()?)?;
    for slot in [0, 1, 2] {
        if view.ranked(Slot(slot)) != anew.ranked(Slot(slot)) {
            return Ok(false);
        }
    }
    Ok(true)
}

fn take(igp: &mut IgpView, event: Event) -> Result<IgpGot, NoMemory> {
    match event {
        Event::Octets(piece, now) => igp.octets(piece, now),
        Event::Clock(now) => {
            igp.clock(now)?;
            Ok(NOTHING)
        }
        Event::Restart => {
            igp.restart();
            Ok(NOTHING)
        }
    }
}

fn act(alloc: Global, igp: &mut IgpView, event: Event) -> Result<Answer, NoMemory> {
    let got = take(igp, event)?;
    let view = igp.view()?;
    Ok(Answer {
        got,
        changes: igp.changes(),
        costs: costs_of(&view),
        ranked_as_built: is_ranked_as_built(alloc, &view)?,
    })
}

/// What each event answers, over a roster.
fn answers(alloc: Global, text: &[u8], events: &[Event]) -> Result<Vec<Answer>, Fail> {
    let roster = roster_of(alloc, text)?;
    let mut igp = IgpView::new(alloc, &roster)?;
    let mut answers = Vec::new(alloc);
    for event in events {
        answers.push(act(alloc, &mut igp, *event)?)?;
    }
    Ok(answers)
}

/// A packet of 24 octets, and a header of version 3.
const HELLO: [u8; 24] = [
    2, 1, 0, 24, 0, 0, 0, 0, 0, 0, 0, 0, 0, 0, 0, 0, 0, 0, 0, 0, 0, 0, 0, 0,
];

const OTHER_VERSION: [u8; 24] = [
    3, 1, 0, 24, 0, 0, 0, 0, 0, 0, 0, 0, 0, 0, 0, 0, 0, 0, 0, 0, 0, 0, 0, 0,
];

const NOTHING: IgpGot = IgpGot {
    installed: 0,
    left_out: 0,
    lost: None,
};

const ONE_INSTALLED: IgpGot = IgpGot {
    installed: 1,
    ..NOTHING
};

/// What the events bring, over three routers without a link of their own.
fn gots(alloc: Global, events: &[Event]) -> Result<Vec<IgpGot>, Fail> {
    let answers = answers(alloc, BARE, events)?;
    Ok(answers.iter().map(|answer| answer.got).collect(alloc)?)
}

/// The costs after octets that come in some pieces, and how many LSAs these bring.
fn in_pieces(
    alloc: Global,
    text: &[u8],
    events: &[Event],
) -> Result<(u64, [Option<u32>; 3]), Fail> {
    let answers = answers(alloc, text, events)?;
    let mut installed: u64 = 0;
    let mut costs = [None; 3];
    for answer in &answers {
        installed = installed.saturating_add(answer.got.installed);
        costs = answer.costs[0];
    }
    Ok((installed, costs))
}

#[test]
fn any_cut_leaves_one_view(rt: HostRuntime) -> Result<(), Fail> {
    let stream = row(rt.alloc(), &[(B, 10)])?;
    for cut in 0..stream.len() {
        let (front, back) = stream.split_at(cut);
        let pieces = [Event::Octets(front, 0), Event::Octets(back, 0)];
        let got = in_pieces(rt.alloc(), BARE, &pieces)?;
        assert_eq!(rt; got, (3, [Some(0), Some(10), Some(20)]), "cut at {cut}");
    }
    Ok(())
}

#[test]
fn a_router_that_lists_no_link_is_alone(rt: HostRuntime) -> Result<(), Fail> {
    let stream = row(rt.alloc(), &[])?;
    let pieces = [Event::Octets(&stream, 0)];
    for (text, last) in [(BARE, None), (LINKED, Some(7))] {
        let got = in_pieces(rt.alloc(), text, &pieces)?;
        assert_eq!(rt; got, (3, [Some(0), Some(10), last]));
    }
    Ok(())
}

#[test]
fn the_place_of_lost_framing_is_answered_once(rt: HostRuntime) -> Result<(), Fail> {
    let update = update(rt.alloc(), (A, 1, 1), &[(B, 10)])?;
    let events = [
        Event::Octets(&HELLO, 0),
        Event::Octets(&HELLO, 0),
        Event::Octets(&OTHER_VERSION, 0),
        Event::Octets(&update, 0),
        Event::Restart,
        Event::Octets(&update, 0),
    ];
    let lost = IgpGot {
        lost: Some(48),
        ..NOTHING
    };
    assert_eq!(rt;
        gots(rt.alloc(), &events)?.as_slice(),
        [NOTHING, NOTHING, lost, NOTHING, NOTHING, ONE_INSTALLED].as_slice()
    );
    Ok(())
}

#[test]
fn a_restart_drops_the_front_of_a_packet(rt: HostRuntime) -> Result<(), Fail> {
    let update = update(rt.alloc(), (A, 1, 1), &[(B, 10)])?;
    let (front, _) = update.split_at(update.len() / 2);
    let events = [
        Event::Octets(front, 0),
        Event::Restart,
        Event::Octets(&update, 0),
    ];
    assert_eq!(rt;
        gots(rt.alloc(), &events)?.as_slice(),
        [NOTHING, NOTHING, ONE_INSTALLED].as_slice()
    );
    Ok(())
}

#[test]
fn instances_age_out(rt: HostRuntime) -> Result<(), Fail> {
    let alloc = rt.alloc();
    let mut stream = update(alloc, (A, 3590, 1), &[(B, 10)])?;
    add_update(alloc, &mut stream, 0, (B, 1, 1), &[(A, 10)])?;
    // a piece of an earlier time comes at the latest, from which the instance ages on
    let events = [
        Event::Octets(&stream, 0),
        Event::Clock(9),
        Event::Clock(10),
        Event::Octets(&stream, 3),
        Event::Octets(&[], 19),
        Event::Octets(&[], 20),
    ];
    let answers = answers(alloc, BARE, &events)?;
    let changes: Vec<u64> = answers.iter().map(|answer| answer.changes).collect(alloc)?;
    assert_eq!(rt; changes.as_slice(), [1, 1, 2, 3, 3, 4].as_slice());
    Ok(())
}

/// An update whose LSA's last octet isn't that of its checksum.
fn faulty_update(alloc: Global) -> Result<Vec<u8>, Fail> {
    let mut faulty = update(alloc, (A, 1, 1), &[(B, 10)])?;
    let _ = faulty.pop();
    faulty.push(11)?;
    Ok(faulty)
}

/// An update that counts two LSAs and has one.
fn short_update(alloc: Global) -> Result<Vec<u8>, Fail> {
    let mut short = update(alloc, (A, 1, 1), &[(B, 10)])?;
    if short.len() > 27 {
        short[27] = 2;
    }
    Ok(short)
}

#[test]
fn what_is_faulty_is_left_out_and_another_area_is_skipped(rt: HostRuntime) -> Result<(), Fail> {
    let alloc = rt.alloc();
    let mut other_area = Vec::new(alloc);
    add_update(alloc, &mut other_area, 1, (A, 1, 1), &[(B, 10)])?;
    let faulty = faulty_update(alloc)?;
    let short = short_update(alloc)?;
    let pieces = [&other_area, &faulty, &short].map(|piece| Event::Octets(piece, 0));
    let left_out = IgpGot {
        left_out: 1,
        ..NOTHING
    };
    let both = IgpGot {
        left_out: 1,
        ..ONE_INSTALLED
    };
    assert_eq!(rt;
        gots(alloc, &pieces)?.as_slice(),
        [NOTHING, left_out, both].as_slice()
    );
    Ok(())
}

/// Two routers that list each other, 2,046 that list none, and one that lists the first.
fn many_routers(alloc: Global) -> Result<Vec<u8>, Fail> {
    let mut stream = update(alloc, (A, 1, 1), &[(B, 10), (C, 10)])?;
    add_update(alloc, &mut stream, 0, (B, 1, 1), &[(A, 10)])?;
    for other in 0..2046 {
        add_update(alloc, &mut stream, 0, (0x0b00_0000 + other, 1, 1), &[])?;
    }
    add_update(alloc, &mut stream, 0, (C, 1, 1), &[(A, 10)])?;
    Ok(stream)
}

#[test]
fn the_2049th_router_has_no_instance(rt: HostRuntime) -> Result<(), Fail> {
    let stream = many_routers(rt.alloc())?;
    let (_installed, costs) = in_pieces(rt.alloc(), BARE, &[Event::Octets(&stream, 0)])?;
    assert_eq!(rt; costs, [Some(0), Some(10), None]);
    Ok(())
}

/// What is drawn next: a linear congruence modulo 2^31.
fn drawn(seed: &mut u32, most: u32) -> u32
    requires { 0 < most }
    ensures { result < most }
{
    *seed = seed.wrapping_mul(1_103_515_245).wrapping_add(12_345) % 0x8000_0000;
    *seed / 65_536 % most
}

/// Metrics between three routers, none where one doesn't list the other.
type Metrics = [[Option<u16>; 3]; 3];

/// Random metrics between three routers.
fn random_metrics(seed: &mut u32) -> Metrics {
    let mut metrics = [[None; 3]; 3];
    for row in &mut metrics {
        for metric in row {
            if drawn(seed, 3) > 0 {
                *metric = Some(drawn(seed, 20) as u16);
            }
        }
    }
    metrics
}

/// The cost of the edge from one router to another where each lists the other.
fn two_way(metrics: &Metrics, from: usize, to: usize) -> Option<u32>
    requires from { from < 3 }
    requires to { to < 3 }
{
    let there = metrics[from][to]?;
    let _back = metrics[to][from]?;
    Some(u32::from(there))
}

/// The lower of a cost and of the sum of two.
fn lower(cost: Option<u32>, first: Option<u32>, second: Option<u32>) -> Option<u32> {
    let (Some(first), Some(second)) = (first, second) else {
        return cost;
    };
    let sum = first.saturating_add(second);
    match cost {
        Some(cost) if cost <= sum => Some(cost),
        _ => Some(sum),
    }
}

/// The costs by the plain definition: over no router between, then over one more at a time.
fn plain_costs(metrics: &Metrics) -> [[Option<u32>; 3]; 3] {
    let mut costs = [[None; 3]; 3];
    for from in 0..3 {
        for to in 0..3 {
            costs[from][to] = if from == to {
                Some(0)
            } else {
                two_way(metrics, from, to)
            };
        }
    }
    for over in 0..3 {
        for from in 0..3 {
            for to in 0..3 {
                costs[from][to] = lower(costs[from][to], costs[from][over], costs[over][to]);
            }
        }
    }
    costs
}

/// A piece with the LSAs of three routers that list these metrics.
fn piece_of(alloc: Global, sequence: i32, metrics: &Metrics) -> Result<Vec<u8>, Fail> {
    let mut stream = Vec::new(alloc);
    let mut from = A;
    for row in metrics {
        let mut links = Vec::new(alloc);
        for (to, metric) in [A, B, C].iter().zip(row) {
            if let Some(metric) = metric {
                links.push((*to, *metric))?;
            }
        }
        add_update(alloc, &mut stream, 0, (from, 1, sequence), &links)?;
        from = from.wrapping_add(1);
    }
    Ok(stream)
}

/// What 60 pieces of random metrics bring over a roster, each piece with its metrics.
fn random_answers(alloc: Global, text: &[u8], seed: u32) -> Result<Vec<(Metrics, Answer)>, Fail> {
    let mut seed = seed;
    let mut rounds = Vec::new(alloc);
    let mut pieces = Vec::new(alloc);
    for round in 0..60 {
        let metrics = random_metrics(&mut seed);
        rounds.push(metrics)?;
        pieces.push(piece_of(alloc, round, &metrics)?)?;
    }
    let events: Vec<Event> = pieces
        .iter()
        .map(|piece| Event::Octets(piece, 0))
        .collect(alloc)?;
    let answers = answers(alloc, text, &events)?;
    let pairs = rounds.iter().zip(&answers);
    Ok(
        pairs
            .map(|(metrics, answer)| (*metrics, *answer))
            .collect(alloc)?,
    )
}

#[test]
fn views_have_the_costs_of_the_plain_definition(rt: HostRuntime) -> Result<(), Fail> {
    for (metrics, answer) in &random_answers(rt.alloc(), BARE, 2026)? {
        assert_eq!(rt; answer.costs, plain_costs(metrics));
    }
    Ok(())
}

#[test]
fn views_that_follow_are_as_if_built(rt: HostRuntime) -> Result<(), Fail> {
    for (_metrics, answer) in &random_answers(rt.alloc(), LINKED, 24)? {
        assert!(rt; answer.ranked_as_built);
    }
    Ok(())
}
