//! The job of a shard's worker.

ghost use Rattle.std.specs.Prelude.{◌≡◌, IsTrue, true};

use crate::shared::Shared;
use mailbox::{Receiver, take};
use outside::{Gate, Link, StopMark};
use seats::{Mail, SeatNames};
use shard_worker::{Turned, Worker};
use std::sync::Wait;

/// The most messages, and the most prefixes, of a turn.
const BUDGET: u32 = 256;

/// How long a worker that finds nothing to do rests, in milliseconds: how late it sees the mark. A message ends the rest.
const REST: u32 = 1_000;

/// The point of the gate that a worker passes after a turn that did something, when there may be offers to read. The points of the turns' starts, which are the shards'
/// numbers, are below.
pub const TURNED: u32 = 1 << 16;

/// Works a shard.
#[derive(Drop)]
pub struct WorkerJob {
    worker: Option<Worker>,
    pub(crate) ran_out: bool,
}

impl WorkerJob {
    /// The job of this worker.
    pub fn new(worker: Worker) -> WorkerJob {
        WorkerJob {
            worker: Some(worker),
            ran_out: false,
        }
    }

    /// Takes turns until no message can come any longer. A worker that finds no memory stops the sessions; its messages are taken and let go, so that
    /// nobody waits for room in its mailbox.
    pub(crate) fn run<B: SeatNames, L: Link, C, G: Gate, R: Wait>(
        &mut self,
        rt: &R,
        shared: &Shared<'_, B, L, C, G>,
    ) {
        let Some(mut worker) = self.worker.take() else {
            return;
        };
        if take_turns(rt, &mut worker, shared.gate, &shared.quiet) {
            self.worker = Some(worker);
            return;
        }
        self.ran_out = true;
        shared.stop.set();
        let (_, mail, _) = worker.into_parts();
        drain(rt, mail, &shared.quiet);
    }
}

/// Takes turns until the mark is set and no message is left. False where a turn found no memory.
fn take_turns<G: Gate, R: Wait>(rt: &R, worker: &mut Worker, gate: &G, quiet: &StopMark) -> bool
    ensures quiet { result ≡ true → IsTrue quiet.now }
{
    for _ in rt.forever() {
        let last = quiet.is_set();
        let Ok(turned) = worker.turn(rt, BUDGET, gate) else {
            return false;
        };
        if last && turned.empty {
            return true;
        }
        if was_idle(&turned) {
            worker.rest(rt, REST);
        } else {
            gate.pass(TURNED);
        }
    }
    unreachable!()
}

/// Whether a turn found nothing to do.
fn was_idle(turned: &Turned) -> bool {
    turned.taken == 0 && turned.worked == 0 && turned.offered == 0
}

/// Takes messages and lets them go, until the mark is set and none is left.
fn drain<R: Wait>(rt: &R, mut mail: Receiver<Mail>, quiet: &StopMark) {
    for _ in rt.forever() {
        let last = quiet.is_set();
        if take(rt, &mut mail).is_none() {
            if last {
                return;
            }
            mail.rest(rt, 20);
        }
    }
}
