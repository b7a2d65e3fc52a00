//! Batches of offers.

ghost use Rattle.std.specs.Prelude.{◌≡◌, ℕ, List, [], map, IfOk, OnOk};
ghost use Rattle.rcp_base.specs.IpPrefix.{prefix_cmp};
ghost use Rattle.rcp_model.specs.Routes.{OfferFields};
ghost use Rattle.shard_mail.specs.Batches.{Takes, TookAll, with_offer, entries_of, updates_of, own_offers};

use rcp_base::{NoMemory, Prefix};
use rcp_model::Offer;
use seats::{Seat, SeatNames};
use std::alloc::Global;
use std::collections::BTreeMap;
use std::sync::Wait;
use update_pack::pack;

/// The most offers that are taken at once.
pub const MOST_OFFERS: usize = 1024;

/// Takes offers until there is none or 1,024 were taken, and packs those of the seat's generation into UPDATEs. Where a
/// prefix stands twice among them its last offer is packed. The others are let go.
///
/// `NoMemory` where there is no room for the offers or the UPDATEs. The offers taken until then are lost. It takes the time of a
/// search by halves for each offer.
pub fn take_batch<B: SeatNames, R: Wait>(
    rt: &R,
    alloc: Global,
    seat: &mut Seat<B>,
) -> Result<Vec<Vec<u8>>, NoMemory>
    ensures { (taken : List (ℕ × OfferFields)) × Takes taken seat.old seat.new × OnOk result (TookAll taken seat.old seat.new)
        × IfOk result (λ messages. map (λ m. m.items) messages.items ≡ updates_of (own_offers seat.old.generation taken)) }
{
    let mut batch = BTreeMap::new(alloc);
    take_offers(rt, seat, &mut batch)?;
    let offers = offers_in(alloc, batch)?;
    pack(alloc, &offers)
}

/// Takes offers until there is none or 1,024 were taken, and keeps those of the seat's generation.
fn take_offers<B: SeatNames, R: Wait>(
    rt: &R,
    seat: &mut Seat<B>,
    batch: &mut BTreeMap<Prefix, Offer>,
) -> Result<(), NoMemory>
    requires { batch.old.entries ≡ [] }
    ensures { (taken : List (ℕ × OfferFields)) × Takes taken seat.old seat.new × OnOk result (TookAll taken seat.old seat.new)
        × OnOk result (batch.new.entries ≡ entries_of (own_offers seat.old.generation taken)) }
{
    let generation = seat.generation();
    for taken in 0..MOST_OFFERS {
        match seat.take_offer(rt) {
            None => return Ok(()),
            Some((_, offer)) => add(batch, generation, offer)?,
        }
    }
    Ok(())
}

/// Keeps an offer, if it is of this generation, in the place of an earlier one at its prefix.
fn add(batch: &mut BTreeMap<Prefix, Offer>, generation: u64, offer: Offer) -> Result<(), NoMemory>
    ensures { OnOk result (batch.new.entries ≡ with_offer generation batch.old.entries offer) }
{
    if offer.generation == generation {
        batch.insert(offer.prefix, offer)?;
    }
    Ok(())
}

/// The offers that are kept, by rising prefix.
fn offers_in(alloc: Global, batch: BTreeMap<Prefix, Offer>) -> Result<Vec<Offer>, NoMemory>
    ensures { IfOk result (λ offers. offers.items ≡ map (λ entry. entry.1) batch.entries) }
{
    Ok(batch.into_values().collect(alloc)?)
}
