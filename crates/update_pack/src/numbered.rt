//! Cells in groups that are found by a number of their attribute octets.

ghost use Rattle.std.specs.Prelude.{◌≡◌, ◌≢◌, ℕ, ◌<◌, ◌≤◌, map, length, IfOk, IfSome, OnOk, All, AllPairs, IsTrue};
ghost use Rattle.rcp_base.specs.Maps.{is_before};
ghost use Rattle.rcp_model.specs.Cells.{Carries};
ghost use Rattle.rcp_model.specs.Packing.{packed};
ghost use Rattle.update_pack.specs.Grouping.{put_in};
ghost use Rattle.update_pack.specs.Shown.{numbered_cell, groups_in};
ghost use Rattle.update_pack.specs.Places.{AreNumbered, AreDistinct};

use crate::filling::write_groups;
use crate::group::Group;
use crate::grouping::{add_prefix, no_groups, open_group};
use rcp_base::{NoMemory, Prefix};
use std::alloc::Global;

/// A cell of a router's table: a prefix, and the number of the attribute octets that it is announced with, or none where it is
/// withdrawn.
#[derive(Clone, Copy, Debug, PartialEq, Eq)]
pub struct NumberedCell {
    pub prefix: Prefix,
    pub number: Option<u32>,
}

/// The UPDATEs of cells, as `pack` gives them of offers. `attrs` has the attribute octets of each number: no two numbers have the
/// same octets, so that the numbers are the groups, and none has more than 4,068.
///
/// `NoMemory` where there is no room for the groups or the messages. It takes time and memory for each cell and each number, and no
/// octets are compared.
pub fn pack_numbered(
    alloc: Global,
    cells: &[NumberedCell],
    attrs: &[&[u8]],
) -> Result<Vec<Vec<u8>>, NoMemory>
    requires numbered { All (λ cell. IfSome cell.number (λ n. n < length attrs.now)) cells.now }
    requires distinct { AreDistinct attrs.now }
    requires short { All (λ octets. length octets.now ≤ 4068) attrs.now }
    ensures packed { IfOk result (λ messages. map (λ m. m.items) messages.items ≡ packed (map (numbered_cell attrs.now) cells.now)) }
    ensures carried { IfOk result (λ messages. AllPairs (λ a b. IsTrue (is_before a.prefix b.prefix)) cells.now
        → Carries (map (λ m. m.items) messages.items) (map (numbered_cell attrs.now) cells.now)) }
{
    let mut groups = no_groups(alloc)?;
    let mut places = vec![in alloc; 0; attrs.len()]?;
    for cell in cells {
        // A prefix is known to be in form once its length is read.
        prove!(cell.prefix.len() <= 32);
        put_numbered(alloc, &mut groups, &mut places, cell, attrs)?;
    }
    write_groups(alloc, groups.as_slice())
}

/// Puts a cell's prefix into its number's group. The place of a number without a group is 0, where the withdrawn prefixes stand.
fn put_numbered<'a>(
    alloc: Global,
    groups: &mut Vec<Group<'a>>,
    places: &mut Vec<usize>,
    cell: &NumberedCell,
    attrs: &[&'a [u8]],
) -> Result<(), NoMemory>
    requires placed { AreNumbered places.old.items attrs.now (groups_in groups.old.items) }
    requires numbered { IfSome cell.now.number (λ n. n < length attrs.now) }
    requires distinct { AreDistinct attrs.now }
    requires short { All (λ octets. length octets.now ≤ 4068) attrs.now }
    ensures grouped { OnOk result (groups_in groups.new.items ≡ put_in (numbered_cell attrs.now cell.now).1 cell.now.prefix (groups_in groups.old.items)) }
    ensures placed { OnOk result (AreNumbered places.new.items attrs.now (groups_in groups.new.items)) }
{
    let Some(number) = cell.number else {
        add_prefix(groups, 0, cell.prefix)?;
        return Ok(());
    };
    let number = number as usize;
    let place = places[number];
    if place > 0 {
        add_prefix(groups, place, cell.prefix)?;
        return Ok(());
    }
    places[number] = groups.len();
    let octets = attrs[number];
    open_group(alloc, groups, Some(octets), cell.prefix)?;
    Ok(())
}
