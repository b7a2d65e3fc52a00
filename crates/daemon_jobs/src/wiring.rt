//! All jobs at once.

ghost use Rattle.std.specs.Prelude.{◌≡◌, ◌≤◌, ℕ, length, map, All, true};
ghost use Rattle.outside.specs.Told.{Rose, NeverFalls};
ghost use Rattle.outbox.specs.Wires.{wire_by};
ghost use Rattle.link_acceptor.specs.Accepting.{RoseBy};
ghost use Rattle.daemon_jobs.specs.Jobs.{is_session, HasRun};

use crate::jobs::Job;
use crate::shared::Shared;
use link_acceptor::{Accepting, accept};
use outbox::Wired;
use outside::{Clock, Gate, Link, Net};
use seats::SeatNames;
use std::sync::Wait;
use std::thread::{Threads, for_each_mut, join_mut};

/// Runs each job on a thread of its own and the acceptor beside them, until all have ended.
pub fn run_all<B: SeatNames + Send, R, N, C, G>(
    rt: &R,
    shared: &Shared<'_, B, N::L, C, G>,
    jobs: &mut [Job<N::L>],
    net: &mut N,
) -> Accepting
where
    R: Threads + Wait + Sync,
    N: Net + Send,
    N::L: Send,
    C: Clock + Sync,
    G: Gate + Sync,
    ensures kinds { map is_session jobs.new ≡ map is_session jobs.old }
    ensures ran { All (HasRun ⟦<N::L as Wired>⟧.wire shared.now.roster.now (C.can_give shared.now.clock.now) B.shard_mailboxes B.offer_mailbox) jobs.new }
    ensures handed_on { RoseBy result.handed_on (N.handed_out net.old) (N.handed_out net.new) }
    ensures cause { result.failed ≡ true → Rose (N.faults net.old) (N.faults net.new) }
    ensures never_falls { NeverFalls (N.faults net.old) (N.faults net.new) }
    ensures handed_back { N.handed_back net.new ≡ N.handed_back net.old }
{
    let (_, accepting) = join_mut(
        rt,
        &mut || run_jobs(rt, shared, jobs),
        &mut || accept(rt, net, &shared.links, &shared.streams, &shared.stop),
    );
    accepting
}

/// Runs each job on a thread of its own.
fn run_jobs<B: SeatNames + Send, L: Link + Send, R, C, G>(
    rt: &R,
    shared: &Shared<'_, B, L, C, G>,
    jobs: &mut [Job<L>],
)
where
    R: Threads + Wait + Sync,
    C: Clock + Sync,
    G: Gate + Sync,
    ensures kinds { map is_session jobs.new ≡ map is_session jobs.old }
    ensures ran { All (HasRun ⟦<L as Wired>⟧.wire shared.now.roster.now (C.can_give shared.now.clock.now) B.shard_mailboxes B.offer_mailbox) jobs.new }
{
    let threads = jobs.len().max(1);
    for_each_mut(
        rt,
        jobs,
        threads,
        &|_, job: &mut Job<L>|
            ensures kind { is_session job.exit.now ≡ is_session job.entry.now }
            ensures ran { HasRun (wire_by L.given L.taken L.closed L.faults L.ends L.empties) shared.entry.now.roster.now (C.can_give shared.entry.now.clock.now) B.shard_mailboxes B.offer_mailbox job.exit.now }
        { job.run(rt, shared) },
    );
}
