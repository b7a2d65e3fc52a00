//! What the daemon needs of the system: its listeners, the clock, and the gate that wakes its sessions.

ghost use Rattle.std.specs.Prelude.{◌≡◌, ◌↔◌, ◌⊎◌, Err, map, IfErr};
ghost use Rattle.rcpd_words.specs.Words.{StandForNone};
ghost use Rattle.rcpd.specs.Listening.{IsAt};

use feed_format::Status;
use net_mio::{Bell, BellGate, MioNet, SystemClock};
use rcpd_run::TURNED;
use rcpd_words::{Endpoint, Settings};
use std::alloc::Global;
use std::net::{Ipv4Addr, Net, SocketAddr};
use std::sync::Arc;
use std::time::Clock;

/// A net, a clock and a gate.
#[derive(Drop)]
pub struct Outside<N, C, G> {
    pub net: N,
    pub clock: C,
    pub gate: G,
}

/// The listeners, the clock and the gate for the words that follow the program's name. No link has come to the listeners.
///
/// `Usage` where the words stand for no settings; then nothing was opened. `NetFault` where the system refuses a listener or the gate: an address is in use or isn't the
/// machine's, a port isn't allowed, or descriptors are wanting. `NoMemory` is the third.
pub fn listen<'a, R: Clock + Net>(
    rt: &'a R,
    alloc: Global,
    words: &[&str],
) -> Result<Outside<MioNet<'a, R>, SystemClock<'a, R>, BellGate>, Status>
    ensures usage { (result ≡ Err Status.Usage) ↔ StandForNone (map (λ word. word.now) words.now) }
    ensures error { IfErr result (λ status. (status ≡ Status.Usage) ⊎ (status ≡ Status.NetFault) ⊎ (status ≡ Status.NoMemory)) }
{
    let Some(settings) = Settings::of_words(words) else {
        return Err(Status::Usage);
    };
    let Ok(bell) = Bell::new(rt) else {
        return Err(Status::NetFault);
    };
    let Ok(bell) = Arc::new(alloc, bell) else {
        return Err(Status::NoMemory);
    };
    let Ok(rung) = bell.clone() else {
        return Err(Status::NoMemory);
    };
    let bgp = socket_address(settings.bgp);
    let link_state = socket_address(settings.link_state);
    let Ok(net) = MioNet::new(rt, alloc, bgp, link_state, rung) else {
        return Err(Status::NetFault);
    };
    Ok(Outside {
        net,
        clock: SystemClock::new(rt),
        gate: BellGate::new(bell, TURNED),
    })
}

/// The address and the port of an endpoint.
fn socket_address(endpoint: Endpoint) -> SocketAddr
    ensures { IsAt result endpoint }
{
    SocketAddr::from((Ipv4Addr::from_bits(endpoint.address.0), endpoint.port))
}
