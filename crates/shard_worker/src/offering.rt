// Putting what changed for the connected routers into their mailboxes.
ghost use Rattle.std.specs.Prelude.{◌≡◌, ◌≢◌, ◌<◌, ◌^◌, ◌-◌, ◌∷◌, ◌++◌, ℕ, [], min, length, true, false, map, Some, IfOk, OnOk, OnErr, IsSome};
ghost use Rattle.mailbox.specs.Boxes.{sent, refusals_of, IsSameSender, counted};
ghost use Rattle.rcp_base.specs.IpPrefix.{IpPrefix};
ghost use Rattle.rcs_shard.specs.Shards.{is_connected, is_dirty, given_at, IsLeastDirty, taken};
ghost use Rattle.shard_worker.specs.Runs.{generation_of};
ghost use Rattle.shard_worker.specs.Offers.{dirty_of, offer_at};
ghost use Rattle.shard_worker.specs.Ends.{port_of};
ghost use Rattle.shard_worker.specs.Turns.{HasPut, HasAttributesLeft, AreOffered, IsOfferedTo, StopsWhereFull, HasOfferLeft, put_count};

use crate::running::Running;
use mailbox::{Sender, put};
use rcp_base::{NoMemory, Prefix, Slot};
use rcp_model::Offer;
use rcs_shard::Shard;
use std::sync::Wait;

/// The offer of what a slot is given at a prefix. `NoMemory` comes only where it is given a route there.
fn make_offer(shard: &Shard, slot: Slot, generation: u64, p: Prefix) -> Result<Offer, NoMemory>
    requires { slot < length shard.now.members }
    ensures offer { IfOk result (λ offer. offer ≡ offer_at shard.now generation slot p) }
    ensures cause { OnErr result (IsSome (given_at shard.now slot p)) }
{
    match shard.table(slot, p) {
        Some(route) => Offer::announcing(generation, p, route),
        None => Ok(Offer::withdrawing(generation, p)),
    }
}

/// Offers the least dirty cell of a slot, and then cleans it. Answers whether there was room for the offer: the cell stays
/// dirty where there was none.
fn put_next<R: Wait>(
    rt: &R,
    shard: &mut Shard,
    slot: Slot,
    generation: u64,
    p: Prefix,
    sender: &mut Sender<Offer>,
) -> Result<bool, NoMemory>
    requires member { slot < length shard.old.members }
    requires least { IsLeastDirty shard.old slot (Some p) }
    ensures same { IsSameSender sender.old sender.new }
    ensures put { IfOk result (λ put. put ≡ true → (sent sender.new ≡ sent sender.old ++ offer_at shard.old generation slot p ∷ []) × (refusals_of sender.new ≡ refusals_of sender.old) × (shard.new ≡ taken slot (Some p) shard.old)) }
    ensures full { IfOk result (λ put. put ≡ false → (sent sender.new ≡ sent sender.old) × (refusals_of sender.new ≡ counted (refusals_of sender.old)) × (shard.new ≡ shard.old)) }
    ensures refused { OnErr result ((sent sender.new ≡ sent sender.old) × (refusals_of sender.new ≡ refusals_of sender.old) × (shard.new ≡ shard.old)) }
    ensures cause { OnErr result (IsSome (given_at shard.old slot p)) }
{
    let offer = make_offer(shard, slot, generation, p)?;
    if put(rt, sender, offer).is_err() {
        return Ok(false);
    }
    shard.take_offer(slot);
    Ok(true)
}

/// Offers the dirty cells of a slot, the least prefix first, until its mailbox is full or none is dirty. Returns how many offers
/// were put.
pub(crate) fn put_dirty<R: Wait>(
    rt: &R,
    shard: &mut Shard,
    slot: Slot,
    generation: u64,
    sender: &mut Sender<Offer>,
) -> Result<u64, NoMemory>
    requires { slot < length shard.old.members }
    ensures put { (count : ℕ) × HasPut generation slot count shard.old shard.new (port_of sender.old) (port_of sender.new) }
    ensures count { IfOk result (λ n. n ≡ min (length (sent sender.new) - length (sent sender.old)) (2 ^ 64 - 1)) }
    ensures full { OnOk result ((p : IpPrefix) → is_dirty shard.new slot p ≡ true → refusals_of sender.new ≡ counted (refusals_of sender.old)) }
    ensures left { OnErr result (HasAttributesLeft shard.new slot) }
{
    let mut count: u64 = 0;
    while let Some(p) = shard.least_dirty(slot) {
        if !put_next(rt, shard, slot, generation, p, sender)? {
            break;
        }
        count = count.saturating_add(1);
    }
    Ok(count)
}

/// Offers the dirty cells of each connected slot by the sender at its place. Returns how many offers were put, or the last
/// value of its type where they are more.
pub(crate) fn put_offers<R: Wait>(
    rt: &R,
    running: &mut Running,
    senders: &mut [Sender<Offer>],
) -> Result<u64, NoMemory>
    requires { length senders.old ≡ length running.old.shard.members }
    ensures generations { running.new.generations ≡ running.old.generations }
    ensures offered { AreOffered running.old running.new.shard (map port_of senders.old) (map port_of senders.new) }
    ensures count { IfOk result (λ n. n ≡ min (put_count (map port_of senders.new) - put_count (map port_of senders.old)) (2 ^ 64 - 1)) }
    ensures full { OnOk result (StopsWhereFull running.new.shard (map port_of senders.old) (map port_of senders.new)) }
    ensures left { OnErr result (HasOfferLeft running.new.shard) }
{
    let mut count: u64 = 0;
    for slot in 0..running.members() {
        let sender = &mut senders[usize::from(slot)];
        count = count.saturating_add(running.offer(rt, Slot(slot), sender)?);
    }
    Ok(count)
}
