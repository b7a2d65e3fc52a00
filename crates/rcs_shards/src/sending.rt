//! What is sent for the dirty cells of all shards.

ghost use Rattle.std.specs.Prelude.{◌≡◌, ℕ, ◌<◌, ◌≤◌, List, [], length, map, option_map, All, IfOk, IfSome, OnOk, None, true};
ghost use Rattle.rcp_base.specs.IpPrefix.{IpPrefix};
ghost use Rattle.rcp_model.specs.Cells.{IsSendable};
ghost use Rattle.rcp_model.specs.Packing.{packed};
ghost use Rattle.rcp_model.specs.Routes.{is_usable};
ghost use Rattle.platform_laws.specs.Asked.{octets_of};
ghost use Rattle.update_pack.specs.Shown.{offered_cell};
ghost use Rattle.rcs_shards.specs.Dirty.{cells_of, AreReady, AreBusy, AreDirty};
ghost use Rattle.rcs_shards.specs.Fronts.{route_of, AreFronts, AreOffered, IsNextCell};

use crate::cursors::{Cursors, find_fronts, least, new_cursors, next_front};
use crate::work::Messages;
use rcp_base::{NoMemory, Prefix, Slot, shard_of};
use rcp_model::Route;
use rcs_shard::Shard;
use roster::Roster;
use std::alloc::Global;
use update_pack::{OfferedCell, pack_cells};

/// The UPDATEs for the dirty cells of each slot of a list, of the shards of a roster. Only the shards at these places are asked: no
/// other has a dirty cell.
pub(crate) fn send(
    alloc: Global,
    roster: &Roster,
    shards: &[Shard],
    busy: &[usize],
    slots: &[Slot],
) -> Result<Vec<Messages>, NoMemory>
    requires ready { AreReady roster.now shards.now }
    requires busy { AreBusy roster.now shards.now busy.now }
    requires members { All (λ slot. slot < length roster.now.members) slots.now }
    ensures sent { IfOk result (λ lists. (prefixes : ℕ → List IpPrefix) → ((slot : ℕ) → AreDirty roster.now shards.now slot (prefixes slot))
        → map (λ messages. map (λ m. m.items) messages.items) lists.items ≡ map (λ slot. packed (cells_of roster.now shards.now slot (prefixes slot))) slots.now) }
    ensures short { IfOk result (λ lists. All (λ messages. All (λ m. length m.items ≤ 4096) messages.items) lists.items) }
{
    let mut lists = Vec::new(alloc);
    let mut cursors = new_cursors(alloc, shards.len())?;
    let mut cells = Vec::new(alloc);
    for slot in slots {
        lists.push(updates(alloc, roster, shards, busy, *slot, &mut cursors, &mut cells)?)?;
    }
    Ok(lists)
}

/// The packed UPDATEs for the dirty cells of a slot. The cells are listed where those of the slot before were.
fn updates<'a>(
    alloc: Global,
    roster: &Roster,
    shards: &'a [Shard],
    busy: &[usize],
    slot: Slot,
    cursors: &mut Cursors<'a>,
    cells: &mut Vec<OfferedCell<'a>>,
) -> Result<Messages, NoMemory>
    requires ready { AreReady roster.now shards.now }
    requires busy { AreBusy roster.now shards.now busy.now }
    requires member { slot < length roster.now.members }
    requires prefixes { length cursors.old.prefixes.items ≡ length shards.now }
    requires routes { length cursors.old.routes.items ≡ length shards.now }
    requires passed { length cursors.old.passed.items ≡ length shards.now }
    ensures prefixes { length cursors.new.prefixes.items ≡ length shards.now }
    ensures routes { length cursors.new.routes.items ≡ length shards.now }
    ensures passed { length cursors.new.passed.items ≡ length shards.now }
    ensures packed { IfOk result (λ messages. (prefixes : List IpPrefix) → AreDirty roster.now shards.now slot prefixes
        → map (λ m. m.items) messages.items ≡ packed (cells_of roster.now shards.now slot prefixes)) }
    ensures short { IfOk result (λ messages. All (λ m. length m.items ≤ 4096) messages.items) }
{
    cells.clear();
    find_fronts(roster, shards, busy, slot, cursors);
    read_cells(roster, shards, busy, slot, cursors, cells)?;
    pack_cells(alloc, cells)
}

/// Lists the dirty cells of a slot, by rising prefix over all shards.
fn read_cells<'a>(
    roster: &Roster,
    shards: &'a [Shard],
    busy: &[usize],
    slot: Slot,
    cursors: &mut Cursors<'a>,
    cells: &mut Vec<OfferedCell<'a>>,
) -> Result<(), NoMemory>
    requires ready { AreReady roster.now shards.now }
    requires busy { AreBusy roster.now shards.now busy.now }
    requires member { slot < length roster.now.members }
    requires fronts { AreFronts shards.now busy.now slot cursors.old.last cursors.old.prefixes.items cursors.old.routes.items }
    requires passed { length cursors.old.passed.items ≡ length shards.now }
    requires first { cursors.old.last ≡ None }
    requires none { cells.old.items ≡ [] }
    ensures prefixes { length cursors.new.prefixes.items ≡ length shards.now }
    ensures routes { length cursors.new.routes.items ≡ length shards.now }
    ensures passed { length cursors.new.passed.items ≡ length shards.now }
    ensures cells { OnOk result (AreOffered roster.now shards.now slot (map offered_cell cells.new.items)) }
{
    while let Some(cell) = next_cell(roster, shards, busy, slot, cursors) {
        if cells.push(cell).is_err() {
            return Err(NoMemory);
        }
    }
    Ok(())
}

/// Reads the least of the dirty cells of a slot that come after the one before.
fn next_cell<'a>(
    roster: &Roster,
    shards: &'a [Shard],
    busy: &[usize],
    slot: Slot,
    cursors: &mut Cursors<'a>,
) -> Option<OfferedCell<'a>>
    requires ready { AreReady roster.now shards.now }
    requires busy { AreBusy roster.now shards.now busy.now }
    requires member { slot < length roster.now.members }
    requires fronts { AreFronts shards.now busy.now slot cursors.old.last cursors.old.prefixes.items cursors.old.routes.items }
    requires passed { length cursors.old.passed.items ≡ length shards.now }
    ensures passed { length cursors.new.passed.items ≡ length shards.now }
    ensures next { IsNextCell roster.now shards.now slot cursors.old.last cursors.new.last (option_map offered_cell result) }
    ensures fronts { AreFronts shards.now busy.now slot cursors.new.last cursors.new.prefixes.items cursors.new.routes.items }
{
    let Some(p) = least(busy, &cursors.prefixes) else {
        return None;
    };
    let number = usize::from(shard_of(p, roster.shards()));
    let Some(first) = cursors.prefixes[number] else {
        return None;
    };
    let cell = cell_of(first, cursors.routes[number]);
    let passed = cursors.passed[number].saturating_add(1);
    let (prefix, route) = next_front(&shards[number], slot, Some(first), passed);
    cursors.last = Some(first);
    cursors.prefixes[number] = prefix;
    cursors.routes[number] = route;
    cursors.passed[number] = passed;
    Some(cell)
}

/// The cell of a route at a prefix, or of none.
fn cell_of<'a>(prefix: Prefix, route: Option<&'a Route>) -> OfferedCell<'a>
    requires { IfSome route (λ route. is_usable route.now ≡ true) }
    ensures cell { offered_cell result ≡ (prefix, octets_of (route_of route.entry)) }
    ensures sendable { IsSendable (offered_cell result) }
{
    // A prefix and a route are known to be in form once they are read.
    prove!(prefix.len() <= 32);
    let attrs = match route {
        Some(route) => {
            prove!(route.octets().len() <= 4068);
            Some(route.octets())
        }
        None => None,
    };
    OfferedCell { prefix, attrs }
}
