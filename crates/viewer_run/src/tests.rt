// Streams in memory, and the views that the shards get.
ghost use Rattle.std.specs.Prelude.{IsTrue};

use crate::{StreamWhy, serve_links, serve_stream};
use cost_rows::View;
use igp_view::IgpView;
use link_acceptor::LinkQueue;
use lsa_reader::{Lsa, LsaLink, POINT_TO_POINT, write};
use mailbox::{Receiver, Sender, make, take};
use outside::{MemClock, MemLink, StopMark};
use rcp_base::{NoMemory, RouterId, Slot};
use rcp_model::Costs;
use rcp_model::rcs_mail::ShardMail;
use roster::read;
use std::alloc::Global;
use std::sync::Wait;
use std::test::Fail;
use std::thread;
use std::thread::Threads;

/// Two routers, no link, area 0.
const BARE: &[u8] =
    b"as 65000\nid 10.0.0.254\nshards 2\nhold 90\narea 0.0.0.0\nrouter 10.0.0.1 10.0.0.1\nrouter 10.0.0.2 10.0.0.2\n";

const A: u32 = 0x0a00_0001;

const B: u32 = 0x0a00_0002;

/// A view, the senders to two shards, and their receivers.
#[derive(Drop)]
struct Parts {
    igp: IgpView,
    senders: Vec<Sender<ShardMail<View>>>,
    receivers: Vec<Receiver<ShardMail<View>>>,
    clock: MemClock,
}

fn clock(alloc: Global) -> Result<MemClock, NoMemory> {
    Ok(MemClock::new(vec![in alloc; 0]?))
}

fn make_parts<R: Wait>(rt: &R, alloc: Global) -> Result<Parts, Fail> {
    let roster = read(alloc, BARE)?;
    let mut senders = Vec::new(alloc);
    let mut receivers = Vec::new(alloc);
    for _shard in 0..2 {
        let (mut one, receiver) = make(rt, alloc, 1, 16)?;
        if let Some(sender) = one.pop() {
            senders.push(sender)?;
        }
        receivers.push(receiver)?;
    }
    Ok(Parts {
        igp: IgpView::new(alloc, &roster)?,
        senders,
        receivers,
        clock: clock(alloc)?,
    })
}

/// The octets of a router's LSA with one point-to-point link, in a packet of area 0 (RFC 2328 sections A.3.5 and A.4.2).
fn update(alloc: Global, router: u32, neighbour: u32, metric: u16) -> Result<Vec<u8>, Fail> {
    let link = LsaLink {
        id: neighbour,
        kind: POINT_TO_POINT,
        metric,
    };
    let lsa = Lsa {
        router: RouterId(router),
        age: 1,
        sequence: 1,
        checksum: 0,
        links: vec![in alloc; link; 1]?,
    };
    let mut octets = [0; 100];
    let len = write(&lsa, &mut octets).ok_or("room")?;
    let (front, _) = octets.split_at(len);
    let mut packet = Vec::new(alloc);
    packet.extend_from_slice(&[2, 4, 0, (28 + len % 200) as u8])?;
    packet.extend_from_slice(&[0; 23])?;
    packet.push(1)?;
    packet.extend_from_slice(front)?;
    Ok(packet)
}

/// A link that gives these octets; its read of this number fails.
fn link(alloc: Global, octets: Vec<u8>, fails: u64) -> Result<MemLink, NoMemory> {
    Ok(MemLink::new(octets, vec![in alloc; fails]?, Vec::new(alloc), 1))
}

/// The cost from A to B in the next view that a shard gets.
fn next_cost<R: Wait>(
    rt: &R,
    receivers: &mut Vec<Receiver<ShardMail<View>>>,
    shard: usize,
) -> Option<Option<u32>> {
    match take(rt, receivers.get_mut(shard)?)? {
        (_, ShardMail::View(view)) => Some(view.cost(Slot(0), Slot(1))),
        _ => None,
    }
}

/// Serves one stream that isn't stopped, whose read of this number fails, and answers why it ended, and the count of LSAs.
fn serve<R: Wait>(
    rt: &R,
    alloc: Global,
    parts: &mut Parts,
    octets: Vec<u8>,
    fails: u64,
) -> Result<(StreamWhy, u64, bool), Fail> {
    let mut link = link(alloc, octets, fails)?;
    let stop = StopMark::new(true);
    let end = serve_stream(
        rt,
        alloc,
        &mut link,
        &parts.clock,
        &mut parts.igp,
        &mut parts.senders,
        &stop,
    );
    Ok((end.why, end.installed, end.lost))
}

#[test]
fn two_streams_join_two_routers(rt: HostRuntime) -> Result<(), Fail> {
    let alloc = rt.alloc();
    let mut parts = make_parts(&rt, alloc)?;
    let first = serve(&rt, alloc, &mut parts, update(alloc, A, B, 10)?, 0)?;
    assert_eq!(rt; first, (StreamWhy::End, 1, false));
    assert_eq!(rt; next_cost(&rt, &mut parts.receivers, 0), None);
    let second = serve(&rt, alloc, &mut parts, update(alloc, B, A, 7)?, 0)?;
    assert_eq!(rt; second, (StreamWhy::End, 1, false));
    assert_eq!(rt; next_cost(&rt, &mut parts.receivers, 0), Some(Some(10)));
    assert_eq!(rt; next_cost(&rt, &mut parts.receivers, 1), Some(Some(10)));
    assert_eq!(rt; next_cost(&rt, &mut parts.receivers, 1), None);
    Ok(())
}

#[test]
fn a_stream_ends_with_its_link_or_loses_its_framing(rt: HostRuntime) -> Result<(), Fail> {
    let alloc = rt.alloc();
    let mut parts = make_parts(&rt, alloc)?;
    let failed = serve(&rt, alloc, &mut parts, update(alloc, A, B, 10)?, 1)?;
    assert_eq!(rt; failed, (StreamWhy::LinkFault, 0, false));
    let garbage = vec![in alloc; 9; 24]?;
    let lost = serve(&rt, alloc, &mut parts, garbage, 0)?;
    assert_eq!(rt; lost, (StreamWhy::End, 0, true));
    Ok(())
}

#[test]
fn a_set_mark_stops_a_stream(rt: HostRuntime) -> Result<(), Fail> {
    let alloc = rt.alloc();
    let mut parts = make_parts(&rt, alloc)?;
    let mut link = link(alloc, update(alloc, A, B, 10)?, 0)?;
    let stop = StopMark::new(true);
    stop.set();
    let end = serve_stream(
        &rt,
        alloc,
        &mut link,
        &parts.clock,
        &mut parts.igp,
        &mut parts.senders,
        &stop,
    );
    assert_eq!(rt; end.why, StreamWhy::Stopped);
    assert_eq!(rt; end.installed, 0);
    Ok(())
}

/// Waits until both shards got a view, and sets the mark then. Answers the costs.
fn await_views<R: Wait>(
    rt: &R,
    receivers: &mut Vec<Receiver<ShardMail<View>>>,
    stop: &StopMark,
) -> [Option<u32>; 2]
    requires { IsTrue stop.now }
{
    let mut costs = [None, None];
    for shard in 0..2 {
        for _ in rt.forever() {
            if let Some(cost) = next_cost(rt, receivers, shard) {
                costs[shard] = cost;
                break;
            }
            thread::yield_now();
        }
    }
    stop.set();
    costs
}

/// The viewer over a queue, and what waits for its views, each in a thread of its own.
fn run_viewer<R: Threads + Wait + Sync>(
    rt: &R,
    alloc: Global,
    queue: &LinkQueue<MemLink>,
    igp: &mut IgpView,
    senders: &mut Vec<Sender<ShardMail<View>>>,
    receivers: &mut Vec<Receiver<ShardMail<View>>>,
    stop: &StopMark,
) -> Result<([Option<u32>; 2], bool), NoMemory>
    requires { IsTrue stop.now }
{
    let clock = clock(alloc)?;
    let (costs, end) = thread::join_mut(
        rt,
        &mut || -> [Option<u32>; 2]
            requires { IsTrue stop.now }
        { await_views(rt, receivers, stop) },
        &mut || serve_links(rt, alloc, queue, &clock, igp, senders, stop),
    );
    Ok((costs, end.memory))
}

#[test]
fn streams_in_a_queue_are_served_one_after_another(rt: HostRuntime) -> Result<(), Fail> {
    let alloc = rt.alloc();
    let mut parts = make_parts(&rt, alloc)?;
    let queue = LinkQueue::new(alloc, 2)?;
    let first = queue
        .push(&rt, link(alloc, update(alloc, A, B, 10)?, 0)?)
        .is_ok();
    let second = queue
        .push(&rt, link(alloc, update(alloc, B, A, 7)?, 0)?)
        .is_ok();
    assert_eq!(rt; (first, second), (true, true));
    let (costs, memory) = run_viewer(
        &rt,
        alloc,
        &queue,
        &mut parts.igp,
        &mut parts.senders,
        &mut parts.receivers,
        &StopMark::new(true),
    )?;
    assert_eq!(rt; costs, [Some(10), Some(10)]);
    assert_eq!(rt; memory, false);
    Ok(())
}
