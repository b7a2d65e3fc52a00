//! Links that wait for the one who serves them.

ghost use Rattle.std.specs.Prelude.{◌≡◌, ◌<◌, IfErr};

use crossbeam_queue::ArrayQueue;
use rcp_base::NoMemory;
use std::alloc::Global;
use std::sync::Wait;
use std::thread::Parker;
use std::time::Duration;

/// A queue of links. Any thread may put a link; one thread takes them, and rests while there is none.
#[derive(Drop)]
pub struct LinkQueue<L> {
    links: ArrayQueue<L>,
    parker: Parker,
}

impl<L> LinkQueue<L> {
    /// A queue with room for so many links, at least 1. `NoMemory` where there is none for it.
    pub fn new(alloc: Global, room: usize) -> Result<LinkQueue<L>, NoMemory>
        requires { 0 < room }
    {
        Ok(LinkQueue {
            links: ArrayQueue::new(alloc, room)?,
            parker: Parker::new(),
        })
    }

    /// Puts a link at the end, and wakes the thread that rests. Hands the link back where the queue is full.
    pub fn push<R: Wait>(&self, rt: &R, link: L) -> Result<(), L>
        ensures { IfErr result (λ back. back ≡ link) }
    {
        self.links.push(rt, link)?;
        self.parker.unpark();
        Ok(())
    }

    /// Takes the oldest link, if there is one.
    pub fn pop<R: Wait>(&self, rt: &R) -> Option<L> {
        self.links.pop(rt)
    }

    /// Rests until a link was put since the last rest, at most so many milliseconds. It may return before, so look for a link
    /// again afterwards.
    pub fn rest<R: Wait>(&self, rt: &R, milliseconds: u32) {
        self.parker
            .park_timeout(rt, Duration::from_millis(u64::from(milliseconds)));
    }
}
