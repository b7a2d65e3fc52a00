//! The sessions of a roster, from the first link to the report.

ghost use Rattle.std.specs.Prelude.{◌≡◌, ◌⊎◌, ◌<◌, ℕ, List, length, IfOk, IfErr, OnOk, slice_index_or};
ghost use Rattle.outside.specs.Told.{Rose, NeverFalls};
ghost use Rattle.link_acceptor.specs.Accepting.{RoseBy};
ghost use Rattle.feed_format.specs.declared.status.Status.TheVariants as status;
ghost use Rattle.daemon_parts.specs.Parts.{AreOfSlot};
ghost use Rattle.daemon_parts.specs.declared.parts.SeatEnds.{SeatEnds};
ghost use Rattle.daemon_jobs.specs.declared.session.Served.{Served};
ghost use Rattle.rcpd_run.specs.Daemons.{HaveServed, report_on};
ghost use Rattle.rcpd_run.specs.Names.{AreNamed};
ghost use Rattle.rcpd_run.specs.Ends.{HasReported};

use crate::ends::{Ends, ends_of, hand_back, sessions_of};
use crate::jobs::{book_of, jobs_of};
use daemon_jobs::{Job, Shared, run_all};
use daemon_parts::Parts;
use feed_format::Status;
use outbox::Wired;
use outside::{Clock, Gate, Link, Net};
use rcp_base::NoMemory;
use roster::Roster;
use seats::SeatNames;
use session_report::report_text;
use std::alloc::Global;
use std::marker::Brand;
use std::sync::Wait;
use std::thread::Threads;

/// Serves so many sessions until the last one ends, hands their links back, and returns the report.
///
/// `NetFault` comes only where the net failed; `NoMemory` is the other error.
pub(crate) fn serve<R, N, C, G>(
    rt: &R,
    alloc: Global,
    roster: &Roster,
    sessions: u16,
    net: &mut N,
    clock: &C,
    gate: &G,
) -> Result<Vec<u8>, Status>
where
    R: Threads + Wait + Sync,
    N: Net + Send,
    N::L: Send,
    C: Clock + Sync,
    G: Gate + Sync,
    ensures handed_out { OnOk result (RoseBy sessions (N.handed_out net.old) (N.handed_out net.new)) }
    ensures served { IfOk result (λ report. (served : List (Served N.L))
        × HaveServed ⟦<N::L as Wired>⟧.wire roster.now (C.can_give clock.now) sessions (N.handed_back net.old) (N.handed_back net.new) served
        × (report.items ≡ report_on roster.now.members served)) }
    ensures error { IfErr result (λ why. (why ≡ status.NoMemory) ⊎ ((why ≡ status.NetFault) × Rose (N.faults net.old) (N.faults net.new))) }
{
    let Ok(parts) = Parts::new(rt, alloc, roster) else {
        return Err(Status::NoMemory);
    };
    serve_with::<Brand, R, N, C, G>(rt, alloc, roster, parts, sessions, net, clock, gate)
}

/// Serves with these mailboxes, for which the seats are named.
fn serve_with<B: SeatNames + Send, R, N, C, G>(
    rt: &R,
    alloc: Global,
    roster: &Roster,
    parts: Parts,
    sessions: u16,
    net: &mut N,
    clock: &C,
    gate: &G,
) -> Result<Vec<u8>, Status>
where
    R: Threads + Wait + Sync,
    N: Net + Send,
    N::L: Send,
    C: Clock + Sync,
    G: Gate + Sync,
    requires named { AreNamed B.places B.shard_mailboxes B.offer_mailbox parts.seats.items }
    requires seats { length parts.seats.items ≡ length roster.now.members }
    requires slots { (slot : ℕ) (seat : SeatEnds) → slot < length parts.seats.items → AreOfSlot slot roster.now.shards (slice_index_or parts.seats.items slot seat).shards.items }
    ensures handed_out { OnOk result (RoseBy sessions (N.handed_out net.old) (N.handed_out net.new)) }
    ensures served { IfOk result (λ report. (served : List (Served N.L))
        × HaveServed ⟦<N::L as Wired>⟧.wire roster.now (C.can_give clock.now) sessions (N.handed_back net.old) (N.handed_back net.new) served
        × (report.items ≡ report_on roster.now.members served)) }
    ensures error { IfErr result (λ why. (why ≡ status.NoMemory) ⊎ ((why ≡ status.NetFault) × Rose (N.faults net.old) (N.faults net.new))) }
{
    let Parts {
        workers,
        seats,
        viewer,
        igp,
    } = parts;
    let Ok(book) = book_of::<B>(alloc, roster, seats) else {
        return Err(Status::NoMemory);
    };
    let Ok(shared) = Shared::new(alloc, roster, clock, gate, book, sessions) else {
        return Err(Status::NoMemory);
    };
    let Ok(mut jobs) = jobs_of(alloc, sessions, igp, viewer, workers) else {
        return Err(Status::NoMemory);
    };
    let accepting = run_all(rt, &shared, &mut jobs, net);
    if jobs.iter().any(|job| job.ran_out()) {
        return Err(Status::NoMemory);
    }
    if accepting.failed {
        return Err(Status::NetFault);
    }
    if accepting.handed_on != usize::from(sessions) {
        return Err(Status::NoMemory);
    }
    match report_of(alloc, roster, jobs, net) {
        Ok(report) => Ok(report),
        Err(NoMemory) => Err(Status::NoMemory),
    }
}

/// Hands the links of the sessions back, and returns the report of their ends.
fn report_of<N: Net>(
    alloc: Global,
    roster: &Roster,
    jobs: Vec<Job<N::L>>,
    net: &mut N,
) -> Result<Vec<u8>, NoMemory>
    ensures served { IfOk result (λ report. HasReported roster.now.members jobs.items (N.handed_back net.old) (N.handed_back net.new) report.items) }
    ensures handed_out { N.handed_out net.new ≡ N.handed_out net.old }
{
    let sessions = sessions_of(alloc, jobs)?;
    let Ends { ends, links } = ends_of(alloc, roster.len(), sessions)?;
    let report = report_text(alloc, roster, &ends)?;
    hand_back(net, links);
    Ok(report)
}
