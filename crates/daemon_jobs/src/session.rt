//! The job of a session.

ghost use Rattle.std.specs.Prelude.{◌≡◌, IfSome, true};
ghost use Rattle.outbox.specs.Wires.{WireOf};
ghost use Rattle.daemon_jobs.specs.Jobs.{WasServed};

use crate::shared::Shared;
use link_acceptor::FreshLink;
use outbox::Wired;
use outside::{Clock, Link};
use seats::SeatNames;
use session_run::serve_session;
use session_serve::{EndWhy, SessionEnd};
use std::sync::Wait;

/// How long a job without a link rests, in milliseconds: how late it sees the mark. A link ends the rest.
const REST: u32 = 1_000;

/// A link that was served, and the end of the session on it.
#[derive(Drop)]
pub struct Served<L> {
    pub link: L,
    pub end: SessionEnd,
}

/// Serves the link that comes to its place.
#[derive(Drop)]
pub struct SessionJob<L> {
    place: usize,
    pub(crate) served: Option<Served<L>>,
}

impl<L: Link> SessionJob<L> {
    /// The job for the link of this place, counted from 0. Nothing was served.
    pub fn new(place: usize) -> SessionJob<L> {
        SessionJob {
            place,
            served: None,
        }
    }

    /// The link that was served, and its end.
    pub fn into_served(self) -> Option<Served<L>>
        ensures { result ≡ self.served }
    {
        self.served
    }

    /// Whether the session found no memory.
    pub(crate) fn ran_out(&self) -> bool {
        match &self.served {
            Some(served) => matches!(served.end.why, EndWhy::NoMemory),
            None => false,
        }
    }

    /// Waits for the link, and serves it. Nothing is served where the mark that stops the sessions is set before.
    pub(crate) fn run<B: SeatNames, C: Clock, G, R: Wait>(
        &mut self,
        rt: &R,
        shared: &Shared<'_, B, L, C, G>,
    )
        ensures { IfSome self.new.served (λ served. WasServed shared.now.roster.now (C.can_give shared.now.clock.now) B.shard_mailboxes B.offer_mailbox (⟦<L as Wired>⟧.wire served.link) served.end) }
    {
        self.served = serve_link(rt, shared, self.place);
        shared.session_ended();
    }
}

/// Waits for the link of a place, and serves it.
fn serve_link<B: SeatNames, L: Link, C: Clock, G, R: Wait>(
    rt: &R,
    shared: &Shared<'_, B, L, C, G>,
    place: usize,
) -> Option<Served<L>>
    ensures { IfSome result (λ served. WasServed shared.now.roster.now (C.can_give shared.now.clock.now) B.shard_mailboxes B.offer_mailbox (⟦<L as Wired>⟧.wire served.link) served.end) }
{
    let mut link = wait_for_link(rt, shared, place)?.into_link();
    let end = serve_session(
        rt,
        shared.alloc,
        &mut link,
        shared.clock,
        shared.roster,
        &shared.book,
        &shared.stop,
    );
    if matches!(end.why, EndWhy::NoMemory) {
        shared.stop.set();
    }
    Some(Served { link, end })
}

/// Waits for the link of a place, until the mark that stops the sessions is set.
fn wait_for_link<B: SeatNames, L: Link, C, G, R: Wait>(
    rt: &R,
    shared: &Shared<'_, B, L, C, G>,
    place: usize,
) -> Option<FreshLink<L>> {
    let links = shared.links.get(place)?;
    for _ in rt.forever() {
        if let Some(link) = links.pop(rt) {
            return Some(link);
        }
        if shared.stop.is_set() {
            return None;
        }
        links.rest(rt, REST);
    }
    unreachable!()
}
