//! Offers, packed as cells.

ghost use Rattle.std.specs.Prelude.{◌≡◌, map, IfOk, AllPairs, IsTrue};
ghost use Rattle.std.specs.List.{AllByRecursion};
ghost use Rattle.rcp_base.specs.Maps.{is_before};
ghost use Rattle.rcp_model.specs.Cells.{IsSendable, Carries};
ghost use Rattle.rcp_model.specs.Packing.{packed};
ghost use Rattle.update_pack.specs.Shown.{cell_of, offered_cell};

use crate::cells::pack_cells;
use crate::offered::OfferedCell;
use rcp_base::NoMemory;
use rcp_model::Offer;
use std::alloc::Global;

/// The UPDATEs of offers, as `pack_cells` gives them of cells. Where the prefixes rise, the UPDATEs replayed after any table give
/// each offer, and leave other prefixes.
///
/// `NoMemory` where there is no room for the cells, the groups or the messages.
pub fn pack(alloc: Global, offers: &[Offer]) -> Result<Vec<Vec<u8>>, NoMemory>
    ensures packed { IfOk result (λ messages. map (λ m. m.items) messages.items ≡ packed (map cell_of offers.now)) }
    ensures carried { IfOk result (λ messages. AllPairs (λ a b. IsTrue (is_before a.prefix b.prefix)) offers.now
        → Carries (map (λ m. m.items) messages.items) (map cell_of offers.now)) }
{
    let cells = cells_of(alloc, offers)?;
    pack_cells(alloc, &cells)
}

/// The cells of offers.
fn cells_of<'a>(alloc: Global, offers: &'a [Offer]) -> Result<Vec<OfferedCell<'a>>, NoMemory>
    ensures cells { IfOk result (λ cells. map offered_cell cells.items ≡ map cell_of offers.now) }
    ensures sendable { IfOk result (λ cells. AllByRecursion IsSendable (map cell_of offers.now)) }
{
    let mut cells = Vec::with_capacity(alloc, offers.len())?;
    for offer in offers {
        if cells.push(cell_of(offer)).is_err() {
            return Err(NoMemory);
        }
    }
    Ok(cells)
}

/// The offer's cell.
fn cell_of(offer: &Offer) -> OfferedCell<'_>
    ensures cell { offered_cell result ≡ cell_of offer.now }
    ensures sendable { IsSendable (cell_of offer.now) }
{
    // A prefix is known to be in form once its length is read.
    prove!(offer.prefix.len() <= 32);
    let attrs = match &offer.attrs {
        Some(attrs) => Some(attrs.as_slice()),
        None => None,
    };
    OfferedCell {
        prefix: offer.prefix,
        attrs,
    }
}
