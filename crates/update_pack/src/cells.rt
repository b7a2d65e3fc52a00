//! Cells in groups that are found by their attribute octets.

ghost use Rattle.std.specs.Prelude.{◌≡◌, ℕ, ◌<◌, ◌≤◌, ◌∷◌, [], List, map, length, Some, None, Option, IfOk, OnOk};
ghost use Rattle.std.specs.List.{AllByRecursion};
ghost use Rattle.rcp_model.specs.Cells.{IsSendable};
ghost use Rattle.rcp_model.specs.Packing.{packed};
ghost use Rattle.update_pack.specs.Values.{value_in, octet_count};
ghost use Rattle.update_pack.specs.Grouping.{place_of, put_in};
ghost use Rattle.update_pack.specs.Shown.{offered_cell, groups_in};
ghost use Rattle.update_pack.specs.Places.{ArePlaces, IsAPlace};

use crate::filling::{write_groups, write_piece};
use crate::group::Group;
use crate::grouping::{add_prefix, no_groups, open_group};
use crate::key::OctetsKey;
use crate::offered::OfferedCell;
use rcp_base::{NoMemory, Prefix};
use std::alloc::Global;
use std::collections::HashMap;

/// The UPDATEs of cells: first those that withdraw, then those that announce, in groups of equal attribute octets by the least
/// prefix of each. Each UPDATE has as many prefixes of its group as 4,096 octets hold (RFC 4271 section 4.1), and stands in a vector
/// of its own. No cell has more than 4,068 octets, so that an UPDATE has room for them and any prefix.
///
/// `NoMemory` where there is no room for the groups or the messages. It takes the time of one look-up in a hash map for each cell
/// whose attributes aren't those of the cell before, and none for a single cell.
pub fn pack_cells(alloc: Global, cells: &[OfferedCell<'_>]) -> Result<Vec<Vec<u8>>, NoMemory>
    requires { AllByRecursion IsSendable (map offered_cell cells.now) }
    ensures { IfOk result (λ messages. map (λ m. m.items) messages.items ≡ packed (map offered_cell cells.now)) }
{
    if cells.len() == 1 {
        return pack_one(alloc, &cells[0]);
    }
    pack_groups(alloc, cells)
}

/// The UPDATE of one cell. After most changes each router is sent one, so it takes no groups.
fn pack_one(alloc: Global, cell: &OfferedCell<'_>) -> Result<Vec<Vec<u8>>, NoMemory>
    requires { IsSendable (offered_cell cell.now) }
    ensures { IfOk result (λ messages. map (λ m. m.items) messages.items ≡ packed (offered_cell cell.now ∷ [])) }
{
    let mut messages = Vec::with_capacity(alloc, 1)?;
    messages.push(write_piece(alloc, cell.attrs, &[cell.prefix])?)?;
    Ok(messages)
}

/// The UPDATEs of cells, by their groups.
fn pack_groups(alloc: Global, cells: &[OfferedCell<'_>]) -> Result<Vec<Vec<u8>>, NoMemory>
    requires { AllByRecursion IsSendable (map offered_cell cells.now) }
    ensures { IfOk result (λ messages. map (λ m. m.items) messages.items ≡ packed (map offered_cell cells.now)) }
{
    let mut groups = no_groups(alloc)?;
    let mut places = HashMap::new(alloc);
    let mut last = 0;
    for cell in cells {
        last = put(
            alloc,
            &mut groups,
            &mut places,
            last,
            cell.prefix,
            cell.attrs,
        )?;
    }
    write_groups(alloc, groups.as_slice())
}

/// Puts a prefix into its value's group, and answers where that stands. Cells with the same value often follow one another, so
/// that the group of the one before is asked first.
fn put<'a>(
    alloc: Global,
    groups: &mut Vec<Group<'a>>,
    places: &mut HashMap<OctetsKey<'a>, usize>,
    last: usize,
    prefix: Prefix,
    attrs: Option<&'a [u8]>,
) -> Result<usize, NoMemory>
    requires placed { ArePlaces places.old (groups_in groups.old.items) }
    requires last { IsAPlace last (groups_in groups.old.items) }
    requires short { octet_count (value_in attrs) ≤ 4068 }
    ensures grouped { OnOk result (groups_in groups.new.items ≡ put_in (value_in attrs.entry) prefix (groups_in groups.old.items)) }
    ensures placed { OnOk result (ArePlaces places.new (groups_in groups.new.items)) }
    ensures last { IfOk result (λ place. IsAPlace place (groups_in groups.new.items)) }
{
    let Some(octets) = attrs else {
        add_prefix(groups, 0, prefix)?;
        return Ok(0);
    };
    if let Some(place) = place_in(groups.as_slice(), places, last, octets) {
        add_prefix(groups, place, prefix)?;
        return Ok(place);
    }
    let place = groups.len();
    open_group(alloc, groups, attrs, prefix)?;
    places.insert(OctetsKey(octets), place)?;
    Ok(place)
}

/// The place of the group of these octets.
fn place_in(
    groups: &[Group<'_>],
    places: &HashMap<OctetsKey<'_>, usize>,
    last: usize,
    octets: &[u8],
) -> Option<usize>
    requires placed { ArePlaces places.now (groups_in groups.now) }
    requires last { IsAPlace last (groups_in groups.now) }
    ensures { result ≡ place_of (Some octets.now) (groups_in groups.now) }
{
    let before = &groups[last];
    if before.attrs == Some(octets) {
        return Some(last);
    }
    places.get(&OctetsKey(octets)).copied()
}
