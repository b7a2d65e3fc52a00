//! Daemons over links in memory.

mod links;
mod together;

use super::*;
use outside::{Gate, Link, MemClock, MemLink, MemNet, MemSink, MemSource, OpenGate};
use std::alloc::Global;
use std::sync::Wait;
use std::test::Fail;
use std::thread::Threads;

/// Three routers and two shards; no link, or links of cost 10 from the first to the second and from there to the third.
const BARE: &[u8] =
    b"as 65000\nid 10.0.0.254\nshards 2\nhold 90\narea 0.0.0.0\nrouter 10.0.0.1 10.0.0.1\nrouter 10.0.0.2 10.0.0.2\nrouter 10.0.0.3 10.0.0.3\n";

const LINKED: &[u8] =
    b"as 65000\nid 10.0.0.254\nshards 2\nhold 90\narea 0.0.0.0\nrouter 10.0.0.1 10.0.0.1\nrouter 10.0.0.2 10.0.0.2\nrouter 10.0.0.3 10.0.0.3\nlink 10.0.0.1 10.0.0.2 10\nlink 10.0.0.2 10.0.0.3 10\n";

/// One router, and one shard.
const ONE: &[u8] =
    b"as 65000\nid 10.0.0.254\nshards 1\nhold 90\narea 0.0.0.0\nrouter 10.0.0.1 10.0.0.1\n";

/// What is seen of a run.
#[derive(Drop)]
struct Seen {
    status: Status,
    report: Vec<u8>,
}

/// Runs a daemon for so many sessions over these links, whose workers pass this gate.
fn run_over<L: Link + Send, G: Gate + Sync, R: Threads + Wait + Sync>(
    rt: &R,
    alloc: Global,
    text: &[u8],
    sessions: &str,
    net: &mut MemNet<L>,
    gate: &G,
) -> Result<Seen, Fail> {
    let mut source = MemSource::new(Vec::from_slice(alloc, text)?, Vec::new(alloc));
    let mut sink = MemSink::new(alloc, Vec::new(alloc));
    let clock = MemClock::new(vec![in alloc; 0]?);
    let words = [
        "--bgp",
        "127.0.0.1:1790",
        "--ls",
        "127.0.0.1:1791",
        "--sessions",
        sessions,
    ];
    let status = run_daemon(rt, alloc, &words, &mut source, &mut sink, net, &clock, gate);
    let report = Vec::from_slice(alloc, sink.octets())?;
    Ok(Seen { status, report })
}

#[test]
fn a_silent_peer_that_ends_is_reported_as_unknown(rt: HostRuntime) -> Result<(), Fail> {
    let alloc = rt.alloc();
    let link = MemLink::new(Vec::new(alloc), Vec::new(alloc), Vec::new(alloc), 4096);
    let mut net = MemNet::new(vec![in alloc; link]?, Vec::new(alloc), Vec::new(alloc));
    let Seen { status, report } = run_over(&rt, alloc, ONE, "1", &mut net, &OpenGate::new())?;
    assert!(rt; status == Status::Done);
    assert_eq!(rt;
        report.as_slice(),
        b"session unknown generation 0 peer-closed messages 0 updates 0\n".as_slice()
    );
    assert_eq!(rt; net.handed_back().len(), 1);
    Ok(())
}

#[test]
fn words_without_an_endpoint_are_a_fault_of_use(rt: HostRuntime) -> Result<(), Fail> {
    let alloc = rt.alloc();
    let mut net: MemNet<MemLink> = MemNet::new(Vec::new(alloc), Vec::new(alloc), Vec::new(alloc));
    let mut source = MemSource::new(Vec::from_slice(alloc, ONE)?, Vec::new(alloc));
    let mut sink = MemSink::new(alloc, Vec::new(alloc));
    let clock = MemClock::new(vec![in alloc; 0]?);
    let status = run_daemon(
        &rt,
        alloc,
        &["--sessions", "1"],
        &mut source,
        &mut sink,
        &mut net,
        &clock,
        &OpenGate::new(),
    );
    assert!(rt; status == Status::Usage);
    Ok(())
}

#[test]
fn a_net_that_fails_is_a_fault_of_the_net(rt: HostRuntime) -> Result<(), Fail> {
    let alloc = rt.alloc();
    let mut net: MemNet<MemLink> = MemNet::new(
        Vec::new(alloc),
        Vec::new(alloc),
        vec![in alloc; 1]?,
    );
    let Seen { status, report } = run_over(&rt, alloc, ONE, "1", &mut net, &OpenGate::new())?;
    assert!(rt; status == Status::NetFault);
    assert_eq!(rt; report.len(), 0);
    Ok(())
}
