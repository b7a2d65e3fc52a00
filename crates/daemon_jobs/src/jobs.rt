//! A job of a daemon.

ghost use Rattle.std.specs.Prelude.{◌≡◌};
ghost use Rattle.daemon_jobs.specs.Jobs.{is_session, HasRun};

use crate::session::SessionJob;
use crate::shared::Shared;
use crate::viewer::ViewerJob;
use crate::worker::WorkerJob;
use outbox::Wired;
use outside::{Clock, Gate, Link};
use seats::SeatNames;
use std::sync::Wait;

/// A job, with what it came to.
#[derive(Drop)]
pub enum Job<L> {
    Session(SessionJob<L>),
    Viewer(ViewerJob),
    Worker(WorkerJob),
}

impl<L: Link> Job<L> {
    /// Runs the job to its end.
    pub(crate) fn run<B: SeatNames, C: Clock, G: Gate, R: Wait>(
        &mut self,
        rt: &R,
        shared: &Shared<'_, B, L, C, G>,
    )
        ensures kind { is_session self.new ≡ is_session self.old }
        ensures ran { HasRun ⟦<L as Wired>⟧.wire shared.now.roster.now (C.can_give shared.now.clock.now) B.shard_mailboxes B.offer_mailbox self.new }
    {
        match self {
            Job::Session(job) => job.run(rt, shared),
            Job::Viewer(job) => job.run(rt, shared),
            Job::Worker(job) => job.run(rt, shared),
        }
    }

    /// Whether the job found no memory.
    pub fn ran_out(&self) -> bool {
        match self {
            Job::Session(job) => job.ran_out(),
            Job::Viewer(job) => job.ran_out,
            Job::Worker(job) => job.ran_out,
        }
    }
}
