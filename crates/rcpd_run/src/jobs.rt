//! The jobs of a roster, and the book of its seats.

ghost use Rattle.std.specs.Prelude.{◌≡◌, ◌<◌, ◌+◌, ℕ, length, IfOk, slice_index_or};
ghost use Rattle.daemon_parts.specs.Parts.{AreOfSlot};
ghost use Rattle.daemon_parts.specs.declared.parts.SeatEnds.{SeatEnds};
ghost use Rattle.rcpd_run.specs.Ends.{count_sessions};
ghost use Rattle.rcpd_run.specs.Names.{AreNamed};

use daemon_jobs::{Job, SessionJob, ViewerJob, WorkerJob};
use daemon_parts::SeatEnds;
use igp_view::IgpView;
use mailbox::Sender;
use outside::Link;
use rcp_base::{NoMemory, Slot};
use roster::Roster;
use seats::{Mail, Seat, SeatBook, SeatNames};
use shard_worker::Worker;
use std::alloc::Global;
use std::collections::VecDeque;

/// The jobs of so many sessions, of the viewer and of the workers.
pub(crate) fn jobs_of<L: Link>(
    alloc: Global,
    sessions: u16,
    igp: IgpView,
    viewer: Vec<Sender<Mail>>,
    workers: Vec<Worker>,
) -> Result<Vec<Job<L>>, NoMemory>
    ensures { IfOk result (λ jobs. count_sessions jobs.items ≡ sessions) }
{
    let mut jobs = Vec::new(alloc);
    for place in 0..sessions {
        jobs.push(Job::Session(SessionJob::new(usize::from(place))))?;
    }
    jobs.push(Job::Viewer(ViewerJob::new(igp, viewer)))?;
    for worker in workers {
        jobs.push(Job::Worker(WorkerJob::new(worker)))?;
    }
    Ok(jobs)
}

/// The book of the seats of a roster, which have these ends, in the order of slots.
pub(crate) fn book_of<B: SeatNames>(
    alloc: Global,
    roster: &Roster,
    ends: Vec<SeatEnds>,
) -> Result<SeatBook<B>, NoMemory>
    requires named { AreNamed B.places B.shard_mailboxes B.offer_mailbox ends.items }
    requires count { length ends.items ≡ length roster.now.members }
    requires slots { (slot : ℕ) (seat : SeatEnds) → slot < length ends.items → AreOfSlot slot roster.now.shards (slice_index_or ends.items slot seat).shards.items }
{
    let mut rest = VecDeque::from_vec(ends);
    let mut seats = Vec::new(alloc);
    for slot in 0..roster.len() {
        let Some(seat) = rest.pop_front() else {
            unreachable!();
        };
        seats.push(Seat::<B>::new(Slot(slot), seat.shards, seat.offers))?;
    }
    SeatBook::new(alloc, seats)
}
