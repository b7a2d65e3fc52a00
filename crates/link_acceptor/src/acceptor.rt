//! Hands on the links that come.

ghost use Rattle.std.specs.Prelude.{◌≡◌, ◌+◌, ◌≤◌, ℕ, length, IsTrue, true, false, IfOk, OnErr};
ghost use Rattle.outside.specs.Told.{Rose, NeverFalls};
ghost use Rattle.link_acceptor.specs.Accepting.{RoseBy, RoseOnce};

use crate::fresh_link::FreshLink;
use crate::link_queue::LinkQueue;
use outside::{Accepted, Failed, Net, StopMark};
use std::sync::Wait;
use std::thread;

/// How an acceptor ended.
#[derive(Clone, Copy, Debug, PartialEq, Eq)]
pub struct Accepting {
    /// How many BGP links were handed on.
    pub handed_on: usize,
    /// Whether the net failed; else the mark was read set.
    pub failed: bool,
}

/// Hands the k-th BGP link to the k-th queue, and streams of link state to the one queue for them, until the mark is set or the net fails, which sets the mark. Once each queue
/// had its link, only streams are accepted. A stream that finds no room in the queue is tried again.
pub fn accept<N: Net, R: Wait>(
    rt: &R,
    net: &mut N,
    links: &[LinkQueue<FreshLink<N::L>>],
    streams: &LinkQueue<N::L>,
    stop: &StopMark,
) -> Accepting
    requires may_be_set { IsTrue stop.now }
    ensures handed_on { RoseBy result.handed_on (N.handed_out net.old) (N.handed_out net.new) }
    ensures few { result.handed_on ≤ length links.now }
    ensures cause { result.failed ≡ true → Rose (N.faults net.old) (N.faults net.new) }
    ensures never_falls { NeverFalls (N.faults net.old) (N.faults net.new) }
    ensures handed_back { N.handed_back net.new ≡ N.handed_back net.old }
{
    let mut handed_on = 0;
    let mut held = None;
    for _ in rt.forever() {
        if stop.is_set() {
            break;
        }
        let Ok(count) = accept_link(rt, net, links, handed_on) else {
            return stopped(stop, handed_on);
        };
        handed_on += count;
        let Ok(kept) = accept_stream(rt, net, streams, held) else {
            return stopped(stop, handed_on);
        };
        held = kept;
        thread::yield_now();
    }
    Accepting {
        handed_on,
        failed: false,
    }
}

/// The end of an acceptor whose net failed: the mark is set.
fn stopped(stop: &StopMark, handed_on: usize) -> Accepting
    requires may_be_set { IsTrue stop.now }
    ensures handed_on { result.handed_on ≡ handed_on }
    ensures failed { result.failed ≡ true }
{
    stop.set();
    Accepting {
        handed_on,
        failed: true,
    }
}

/// Accepts the BGP link of the queue at a place, where there is one: how many were handed on, 0 or 1.
fn accept_link<N: Net, R: Wait>(
    rt: &R,
    net: &mut N,
    links: &[LinkQueue<FreshLink<N::L>>],
    place: usize,
) -> Result<usize, Failed>
    requires { place ≤ length links.now }
    ensures one { IfOk result (λ count. RoseOnce count (N.handed_out net.old) (N.handed_out net.new) × (place + count ≤ length links.now)) }
    ensures none { OnErr result (N.handed_out net.new ≡ N.handed_out net.old) }
    ensures cause { OnErr result (Rose (N.faults net.old) (N.faults net.new)) }
    ensures never_falls { NeverFalls (N.faults net.old) (N.faults net.new) }
    ensures handed_back { N.handed_back net.new ≡ N.handed_back net.old }
{
    let Some(queue) = links.get(place) else {
        return Ok(0);
    };
    match net.accept_bgp() {
        Ok(Accepted::Link(link)) => {
            let _full = queue.push(rt, FreshLink::new(link));
            Ok(1)
        }
        Ok(Accepted::NotReady) => Ok(0),
        Err(failed) => Err(failed),
    }
}

/// Accepts a stream of link state where none is held, and puts it into the queue. Gives it back where the queue is full.
fn accept_stream<N: Net, R: Wait>(
    rt: &R,
    net: &mut N,
    streams: &LinkQueue<N::L>,
    held: Option<N::L>,
) -> Result<Option<N::L>, Failed>
    ensures handed_out { N.handed_out net.new ≡ N.handed_out net.old }
    ensures cause { OnErr result (Rose (N.faults net.old) (N.faults net.new)) }
    ensures never_falls { NeverFalls (N.faults net.old) (N.faults net.new) }
    ensures handed_back { N.handed_back net.new ≡ N.handed_back net.old }
{
    if let Some(stream) = held {
        return Ok(streams.push(rt, stream).err());
    }
    match net.accept_links() {
        Ok(Accepted::Link(stream)) => Ok(streams.push(rt, stream).err()),
        Ok(Accepted::NotReady) => Ok(None),
        Err(failed) => Err(failed),
    }
}
