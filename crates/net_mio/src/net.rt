// The listeners of a daemon.
ghost use Rattle.std.specs.Prelude.{◌≡◌, None, IfOk, IfSome};
ghost use Rattle.net_mio.specs.Fresh.{IsNew};

use crate::bell::Bell;
use crate::link::MioLink;
use crate::trouble::may_pass;
use mio::net::TcpListener;
use mio::{Events, Interest, Poll, Token};
use outside::{Accepted, Failed};
use std::alloc::Global;
use std::io;
use std::net::{Net, SocketAddr};
use std::sync::Arc;
use std::time::Duration;

const BGP: Token = Token(0);

const LINK_STATE: Token = Token(1);

/// The longest rest where no link has come, in milliseconds.
const REST: u64 = 100;

/// Two TCP listeners: one for BGP sessions, and one for streams of link state.
#[derive(Drop)]
pub struct MioNet<'a, N> {
    net: &'a N,
    alloc: Global,
    bgp: TcpListener,
    link_state: TcpListener,
    poll: Poll,
    events: Events,
    bell: Arc<Bell, Global>,
    /// Whether a link or an event came since the last rest: there may be more at either listener.
    busy: bool,
    faults: u64,
    handed_out: u64,
}

impl<'a, N: Net> MioNet<'a, N> {
    /// Listens at both addresses. The links will wait for the bell too. An error is one of the system: an address is in use or isn't the
    /// machine's, a port isn't allowed, or descriptors or memory are wanting.
    pub fn new(
        net: &'a N,
        alloc: Global,
        bgp: SocketAddr,
        link_state: SocketAddr,
        bell: Arc<Bell, Global>,
    ) -> io::Result<MioNet<'a, N>> {
        let mut bgp = TcpListener::bind(net, bgp)?;
        let mut link_state = TcpListener::bind(net, link_state)?;
        let poll = Poll::new(net)?;
        poll.registry().register(&mut bgp, BGP, Interest::READABLE)?;
        poll.registry()
            .register(&mut link_state, LINK_STATE, Interest::READABLE)?;
        Ok(MioNet {
            net,
            alloc,
            bgp,
            link_state,
            poll,
            events: Events::with_capacity(alloc, 2)?,
            bell,
            busy: true,
            faults: 0,
            handed_out: 0,
        })
    }

    /// The address at which BGP sessions are accepted.
    pub fn bgp_addr(&self) -> io::Result<SocketAddr> {
        self.bgp.local_addr()
    }

    /// The address at which streams of link state are accepted.
    pub fn link_state_addr(&self) -> io::Result<SocketAddr> {
        self.link_state.local_addr()
    }
}

/// Rests until a link comes to one of the listeners, but not where the last call found something. Returns whether something came.
fn rest(poll: &mut Poll, events: &mut Events, busy: bool) -> bool {
    if busy {
        return false;
    }
    let came = poll.poll(events, Some(Duration::from_millis(REST)));
    came.is_err() || !events.is_empty()
}

/// A link that has come to a listener. Its poll is made first, so that for want of descriptors a peer waits and isn't lost.
fn accept<N: Net>(
    net: &N,
    alloc: Global,
    listener: &TcpListener,
    bell: &Bell,
) -> io::Result<Option<MioLink>>
    ensures { IfOk result (λ link. IfSome link (λ link. IsNew link.faults link.ends link.empties)) }
{
    let poll = Poll::new(net)?;
    let (stream, _) = listener.accept()?;
    Ok(MioLink::new(alloc, poll, stream, bell).ok())
}

impl<N: Net> outside::Net for MioNet<'_, N> {
    type L = MioLink;

    ghost faults = { λ n. n.faults };

    ghost handed_out = { λ n. n.handed_out };

    ghost handed_back = { λ _. None };

    /// A connection of which the peer is gone at once isn't handed out.
    fn accept_bgp(&mut self) -> Result<Accepted<MioLink>, Failed> {
        let (faults, handed_out) = (self.faults, self.handed_out);
        self.busy = rest(&mut self.poll, &mut self.events, self.busy);
        match accept(self.net, self.alloc, &self.bgp, &self.bell) {
            Ok(Some(link)) => {
                self.busy = true;
                self.handed_out = handed_out.saturating_add(1);
                Ok(Accepted::Link(link))
            }
            Ok(None) => Ok(Accepted::NotReady),
            Err(error) if may_pass(&error) => Ok(Accepted::NotReady),
            Err(_) => {
                self.faults = faults.saturating_add(1);
                Err(Failed)
            }
        }
    }

    fn accept_links(&mut self) -> Result<Accepted<MioLink>, Failed> {
        let faults = self.faults;
        self.busy = rest(&mut self.poll, &mut self.events, self.busy);
        match accept(self.net, self.alloc, &self.link_state, &self.bell) {
            Ok(Some(link)) => {
                self.busy = true;
                Ok(Accepted::Link(link))
            }
            Ok(None) => Ok(Accepted::NotReady),
            Err(error) if may_pass(&error) => Ok(Accepted::NotReady),
            Err(_) => {
                self.faults = faults.saturating_add(1);
                Err(Failed)
            }
        }
    }

    fn hand_back(&mut self, _link: MioLink) {}
}
