// A bell that ends the waiting of every link.

use mio::net::UnixStream;
use mio::unix::SourceFd;
use mio::{Interest, Registry, Token};
use outside::Gate;
use std::alloc::Global;
use std::io;
use std::io::{Read, Write};
use std::net::Net;
use std::os::fd::AsRawFd;
use std::sync::Arc;

/// Ends the waiting of all links that were made with it. Any thread may ring it.
///
/// It is a pair of sockets. Each octet that is written to one is an event for every link that waits for the other, also for one whose
/// thread is busy and waits later. Nobody reads it until it is full.
#[derive(Drop)]
pub struct Bell {
    near: UnixStream,
    far: UnixStream,
}

impl Bell {
    /// A bell, with two descriptors. An error is one of the system: no descriptor, or no memory.
    pub fn new<N: Net>(net: &N) -> io::Result<Bell> {
        let (near, far) = UnixStream::pair(net)?;
        Ok(Bell { near, far })
    }

    /// Rings. It waits for nothing.
    pub fn ring(&self) {
        let mut near = &self.near;
        if near.write(&[0]).is_err() {
            self.drain();
            // Where another thread has filled it again meanwhile, that thread's octets ring as well.
            let _ = near.write(&[0]);
        }
    }

    /// Reads a part of what was written.
    fn drain(&self) {
        let mut far = &self.far;
        let mut buf = [0; 4096];
        let _ = far.read(&mut buf);
    }

    /// Has a poll report each ring.
    pub(crate) fn add_to(&self, registry: &Registry, token: Token) -> io::Result<()> {
        let descriptor = self.far.as_raw_fd();
        registry.register(&mut SourceFd(&descriptor), token, Interest::READABLE)
    }
}

/// A gate that rings the bell when it is passed at one of its last points, and holds nobody.
#[derive(Drop)]
pub struct BellGate {
    bell: Arc<Bell, Global>,
    first: u32,
}

impl BellGate {
    /// A gate that rings at the points from `first` on. With those that a shard's worker passes after a turn that did something, a session reads the offers of the
    /// turn at once, and a worker without work wakes nobody.
    pub fn new(bell: Arc<Bell, Global>, first: u32) -> BellGate {
        BellGate { bell, first }
    }
}

impl Gate for BellGate {
    fn pass(&self, point: u32) {
        if point >= self.first {
            self.bell.ring();
        }
    }
}
