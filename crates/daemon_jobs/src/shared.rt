//! What all jobs share.

ghost use Rattle.std.specs.Prelude.{◌≡◌, ◌<◌, ◌≤◌, ℕ, length, IsTrue, IfOk};

use link_acceptor::{FreshLink, LinkQueue};
use outside::{Link, StopMark};
use rcp_base::NoMemory;
use roster::Roster;
use seats::{SeatBook, SeatNames};
use std::alloc::Global;
use std::sync::atomic::{AtomicU64, Ordering};

/// For how many streams of link state there is room before the viewer takes them.
const STREAMS: usize = 16;

/// What the jobs of a daemon share: the roster, the clock, the gate of the workers, the seats, the links that come, and the marks that end the jobs.
#[derive(Drop)]
pub struct Shared<'a, B: SeatNames, L: Link, C, G> {
    pub(crate) alloc: Global,
    pub(crate) roster: &'a Roster,
    pub(crate) clock: &'a C,
    pub(crate) gate: &'a G,
    pub(crate) book: SeatBook<B>,
    /// For each session the link that it is to serve.
    pub(crate) links: Vec<LinkQueue<FreshLink<L>>>,
    /// The streams of link state that are to be served.
    pub(crate) streams: LinkQueue<L>,
    /// Set once no session is served any longer.
    pub(crate) stop: StopMark,
    /// Set once neither a session nor the viewer puts any message to a shard.
    pub(crate) quiet: StopMark,
    sessions_left: AtomicU64,
    senders_left: AtomicU64,
    ghost places: { length roster.now.members ≤ B.places },
    ghost shards: { (slot : ℕ) → slot < B.places → length (B.shard_mailboxes slot) ≡ roster.now.shards },
    ghost may_stop: { IsTrue stop },
    ghost may_be_quiet: { IsTrue quiet },
}

impl<'a, B: SeatNames, L: Link, C, G> Shared<'a, B, L, C, G> {
    /// What the jobs of so many sessions share. The book has a place for each slot of the roster, and a seat of it has one mailbox for each shard.
    ///
    /// `NoMemory` where there is no room for the queues.
    pub fn new(
        alloc: Global,
        roster: &'a Roster,
        clock: &'a C,
        gate: &'a G,
        book: SeatBook<B>,
        sessions: u16,
    ) -> Result<Shared<'a, B, L, C, G>, NoMemory>
        requires places { length roster.now.members ≤ B.places }
        requires shards { (slot : ℕ) → slot < B.places → length (B.shard_mailboxes slot) ≡ roster.now.shards }
        ensures { IfOk result (λ shared. (shared.roster.now ≡ roster.now) × (shared.clock.now ≡ clock.now)) }
    {
        let mut links = Vec::new(alloc);
        for _ in 0..sessions {
            links.push(LinkQueue::new(alloc, 1)?)?;
        }
        Ok(Shared {
            alloc,
            roster,
            clock,
            gate,
            book,
            links,
            streams: LinkQueue::new(alloc, STREAMS)?,
            stop: StopMark::new(true),
            quiet: StopMark::new(true),
            sessions_left: AtomicU64::new(u64::from(sessions)),
            senders_left: AtomicU64::new(u64::from(sessions) + 1),
        })
    }

    /// A session's job has ended; the last one to end sets the mark that stops the others.
    pub(crate) fn session_ended(&self) {
        if self.sessions_left.fetch_sub(1, Ordering::SeqCst) == 1 {
            self.stop.set();
        }
        self.sender_ended();
    }

    /// A session's job or the viewer has ended; after the last one no message comes to a shard.
    pub(crate) fn sender_ended(&self) {
        if self.senders_left.fetch_sub(1, Ordering::SeqCst) == 1 {
            self.quiet.set();
        }
    }
}
