//! What the jobs of a roster work with.

ghost use Rattle.std.specs.Prelude.{◌≡◌, ◌<◌, ◌≤◌, ℕ, [], length, map, All, IfOk, slice_index_or};
ghost use Rattle.mailbox.specs.Boxes.{received, sent};
ghost use Rattle.shard_worker.specs.Ends.{inbox_of, port_of};
ghost use Rattle.shard_worker.specs.Workers.{WorkerOf};
ghost use Rattle.daemon_parts.specs.Parts.{AreOfSlot, AreWired};
ghost use Rattle.daemon_parts.specs.declared.parts.SeatEnds.{SeatEnds};

use crate::mesh::make_mesh;
use igp_view::IgpView;
use mailbox::{Receiver, Sender};
use rcp_base::NoMemory;
use rcp_model::Offer;
use rcs_shard::Shard;
use roster::Roster;
use seats::Mail;
use shard_worker::Worker;
use std::alloc::Global;
use std::collections::VecDeque;
use std::sync::Wait;

/// For how many messages a shard's mailbox has room.
const SHARD_ROOM: usize = 4096;

/// For how many offers a router's mailbox has room.
const OFFER_ROOM: usize = 1024;

/// The ends of a seat: its senders, in the order of shards, and its receiver of offers.
#[derive(Drop)]
pub struct SeatEnds {
    pub shards: Vec<Sender<Mail>>,
    pub offers: Receiver<Offer>,
}

/// What the jobs of a daemon work with. Nothing was put by any sender.
#[derive(Drop)]
pub struct Parts {
    /// The workers, in the order of shards.
    pub workers: Vec<Worker>,
    /// The ends of the seats, in the order of slots.
    pub seats: Vec<SeatEnds>,
    /// The viewer's senders, in the order of shards.
    pub viewer: Vec<Sender<Mail>>,
    /// The link state before any LSA.
    pub igp: IgpView,
}

impl Parts {
    /// The parts for a roster.
    ///
    /// `NoMemory` where there is no room for them.
    pub fn new<R: Wait>(rt: &R, alloc: Global, roster: &Roster) -> Result<Parts, NoMemory>
        ensures seats { IfOk result (λ parts. length parts.seats.items ≡ length roster.now.members) }
        ensures ends { IfOk result (λ parts. (slot : ℕ) (seat : SeatEnds) → slot < length parts.seats.items → AreOfSlot slot roster.now.shards (slice_index_or parts.seats.items slot seat).shards.items) }
        ensures workers { IfOk result (λ parts. length parts.workers.items ≡ roster.now.shards) }
        ensures viewer { IfOk result (λ parts. length parts.viewer.items ≡ roster.now.shards) }
        ensures wired { IfOk result (λ parts. AreWired roster.now.shards (length roster.now.members) parts.workers.items parts.seats.items parts.viewer.items) }
    {
        let igp = IgpView::new(alloc, roster)?;
        let shards = usize::from(roster.shards());
        let routers = usize::from(roster.len());
        let mut to_shards = make_mesh(rt, alloc, shards, u32::from(roster.len()) + 1, SHARD_ROOM)?;
        let to_routers = make_mesh(rt, alloc, routers, u32::from(roster.shards()), OFFER_ROOM)?;
        let Some(viewer) = to_shards.senders.pop() else {
            return Err(NoMemory);
        };
        Ok(Parts {
            workers: workers_of(alloc, roster, &igp, to_shards.receivers, to_routers.senders)?,
            seats: seats_of(alloc, roster.len(), to_shards.senders, to_routers.receivers)?,
            viewer,
            igp,
        })
    }
}

/// The workers of a roster's shards, each with its mailbox and its senders to the routers, in the order of slots.
fn workers_of(
    alloc: Global,
    roster: &Roster,
    igp: &IgpView,
    mails: Vec<Receiver<Mail>>,
    offers: Vec<Vec<Sender<Offer>>>,
) -> Result<Vec<Worker>, NoMemory>
    requires mails { All (λ mail. received mail ≡ []) mails.items × (length mails.items ≡ roster.now.shards) }
    requires offers { All (λ row. (length row.items ≡ length roster.now.members) × All (λ sender. sent sender ≡ []) row.items) offers.items × (length offers.items ≡ roster.now.shards) }
    requires members { igp.now.members ≡ roster.now.members }
    ensures count { IfOk result (λ workers. length workers.items ≡ roster.now.shards) }
    ensures numbers { IfOk result (λ workers. (shard : ℕ) (worker : WorkerOf) → shard < roster.now.shards → (slice_index_or workers.items shard worker).run.shard.number ≡ shard) }
    ensures mails { IfOk result (λ workers. (shard : ℕ) (worker : WorkerOf) (mail : _) → shard < roster.now.shards → (slice_index_or workers.items shard worker).inbox ≡ inbox_of (slice_index_or mails.items shard mail)) }
    ensures offers { IfOk result (λ workers. (shard : ℕ) (worker : WorkerOf) (row : _) → shard < roster.now.shards → (slice_index_or workers.items shard worker).ports ≡ map port_of (slice_index_or offers.items shard row).items) }
{
    let mut mails = VecDeque::from_vec(mails);
    let mut offers = VecDeque::from_vec(offers);
    let mut workers = Vec::new(alloc);
    for number in 0..roster.shards() {
        let (Some(mail), Some(offers)) = (mails.pop_front(), offers.pop_front()) else {
            unreachable!();
        };
        let shard = Shard::new(alloc, roster, number, igp.view()?)?;
        workers.push(Worker::new(shard, mail, offers))?;
    }
    Ok(workers)
}

/// The ends of the seats of so many slots: the first row and the first receiver are those of slot 0.
fn seats_of(
    alloc: Global,
    slots: u16,
    rows: Vec<Vec<Sender<Mail>>>,
    receivers: Vec<Receiver<Offer>>,
) -> Result<Vec<SeatEnds>, NoMemory>
    requires rows { slots ≤ length rows.items }
    requires receivers { slots ≤ length receivers.items }
    ensures count { IfOk result (λ seats. length seats.items ≡ slots) }
    ensures rows { IfOk result (λ seats. (slot : ℕ) (seat : SeatEnds) (row : _) → slot < slots → (slice_index_or seats.items slot seat).shards ≡ slice_index_or rows.items slot row) }
    ensures receivers { IfOk result (λ seats. (slot : ℕ) (seat : SeatEnds) (receiver : _) → slot < slots → (slice_index_or seats.items slot seat).offers ≡ slice_index_or receivers.items slot receiver) }
{
    let mut rows = VecDeque::from_vec(rows);
    let mut receivers = VecDeque::from_vec(receivers);
    let mut seats = Vec::new(alloc);
    for _ in 0..slots {
        let (Some(shards), Some(offers)) = (rows.pop_front(), receivers.pop_front()) else {
            unreachable!();
        };
        seats.push(SeatEnds { shards, offers })?;
    }
    Ok(seats)
}
