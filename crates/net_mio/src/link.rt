// A link over TCP.
ghost use Rattle.std.specs.Prelude.{◌≡◌, IfOk, None};

use crate::bell::Bell;
use crate::trouble::may_pass;
use mio::net::TcpStream;
use mio::{Events, Interest, Poll, Token};
use outside::{Failed, Link, LinkRead};
use std::alloc::Global;
use std::io;
use std::io::{Read, Write};
use std::net::Shutdown;
use std::time::Duration;

const SOCKET: Token = Token(0);

const BELL: Token = Token(1);

/// How many events a wait takes: one of the socket, and one of the bell.
const EVENTS: usize = 2;

/// The descriptors of a link that isn't closed.
#[derive(Drop)]
struct Open {
    stream: TcpStream,
    poll: Poll,
    events: Events,
}

/// A TCP connection with a peer. It has two descriptors until it is closed or dropped.
#[derive(Drop)]
pub struct MioLink {
    open: Option<Open>,
    /// Whether octets came since the last wait: more may be there, and no event comes for it.
    came: bool,
    faults: u64,
    ends: u64,
    empties: u64,
}

impl MioLink {
    ghost use Rattle.net_mio.specs.Fresh.{IsNew};

    /// A link over a connection, which waits with this poll. Small messages are sent at once (TCP_NODELAY). An error is one of the system:
    /// the peer is gone, or memory is wanting.
    pub(crate) fn new(
        alloc: Global,
        poll: Poll,
        mut stream: TcpStream,
        bell: &Bell,
    ) -> io::Result<MioLink>
        ensures { IfOk result (λ link. IsNew link.faults link.ends link.empties) }
    {
        stream.set_nodelay(true)?;
        poll.registry().register(&mut stream, SOCKET, Interest::READABLE | Interest::WRITABLE)?;
        bell.add_to(poll.registry(), BELL)?;
        let events = Events::with_capacity(alloc, EVENTS)?;
        Ok(MioLink {
            open: Some(Open {
                stream,
                poll,
                events,
            }),
            came: false,
            faults: 0,
            ends: 0,
            empties: 0,
        })
    }
}

impl Link for MioLink {
    ghost faults = { λ l. l.faults };

    ghost ends = { λ l. l.ends };

    ghost empties = { λ l. l.empties };

    ghost given = { λ _. None };

    ghost left = { λ _. None };

    ghost taken = { λ _. None };

    ghost closed = { λ _. None };

    /// A closed link has ended.
    fn read(&mut self, buf: &mut [u8]) -> Result<LinkRead, Failed> {
        let (faults, ends) = (self.faults, self.ends);
        let Some(open) = &mut self.open else {
            self.ends = ends.saturating_add(1);
            return Ok(LinkRead::End);
        };
        match open.stream.read(buf) {
            Ok(0) => {
                self.ends = ends.saturating_add(1);
                Ok(LinkRead::End)
            }
            Ok(count) => {
                self.came = true;
                Ok(LinkRead::Octets(count))
            }
            Err(error) if may_pass(&error) => Ok(LinkRead::NotReady),
            Err(_) => {
                self.faults = faults.saturating_add(1);
                Err(Failed)
            }
        }
    }

    /// A closed link fails.
    fn write(&mut self, piece: &[u8]) -> Result<usize, Failed> {
        let (faults, empties) = (self.faults, self.empties);
        if let Some(open) = &mut self.open {
            match open.stream.write(piece) {
                Ok(0) if !piece.is_empty() => {
                    self.empties = empties.saturating_add(1);
                    return Ok(0);
                }
                Ok(count) => return Ok(count),
                Err(error) if may_pass(&error) => {
                    if !piece.is_empty() {
                        self.empties = empties.saturating_add(1);
                    }
                    return Ok(0);
                }
                Err(_) => {}
            }
        }
        self.faults = faults.saturating_add(1);
        Err(Failed)
    }

    /// Waits until octets came, there is room to write, or the bell rang: at most so many milliseconds. It returns at once where the last
    /// read gave octets, since there may be more.
    fn wait(&mut self, milliseconds: u32) {
        let came = self.came;
        self.came = false;
        if came {
            return;
        }
        if let Some(open) = &mut self.open {
            let time = Duration::from_millis(u64::from(milliseconds));
            // What was ready is found by the next read or write.
            let _ = open.poll.poll(&mut open.events, Some(time));
        }
    }

    /// Ends the connection in both directions, and frees its descriptors. What was written still goes out.
    fn close(&mut self) {
        if let Some(open) = self.open.take() {
            let _ = open.stream.shutdown(Shutdown::Both);
        }
    }
}
