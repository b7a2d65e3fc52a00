//! Groups in the making.

ghost use Rattle.std.specs.Prelude.{◌≡◌, ◌≤◌, ◌<◌, ◌++◌, ◌∷◌, [], None, IfOk, OnOk, length};
ghost use Rattle.update_pack.specs.Values.{value_in, octet_count};
ghost use Rattle.update_pack.specs.Grouping.{add_at};
ghost use Rattle.update_pack.specs.Shown.{groups_in};

use crate::group::Group;
use rcp_base::{NoMemory, Prefix};
use std::alloc::Global;

/// The groups before any cell: that of the withdrawn prefixes, without one.
pub(crate) fn no_groups<'a>(alloc: Global) -> Result<Vec<Group<'a>>, NoMemory>
    ensures { IfOk result (λ groups. groups_in groups.items ≡ (None, []) ∷ []) }
{
    let mut groups = Vec::new(alloc);
    groups.push(Group {
        attrs: None,
        prefixes: Vec::new(alloc),
    })?;
    Ok(groups)
}

/// Adds a prefix to the group at a place.
pub(crate) fn add_prefix(
    groups: &mut Vec<Group<'_>>,
    place: usize,
    prefix: Prefix,
) -> Result<(), NoMemory>
    requires { place < length groups.old.items }
    ensures { OnOk result (groups_in groups.new.items ≡ add_at place prefix (groups_in groups.old.items)) }
{
    let group = &mut groups[place];
    group.prefixes.push(prefix)?;
    Ok(())
}

/// Opens a group after the others, with its first prefix.
pub(crate) fn open_group<'a>(
    alloc: Global,
    groups: &mut Vec<Group<'a>>,
    attrs: Option<&'a [u8]>,
    prefix: Prefix,
) -> Result<(), NoMemory>
    requires { octet_count (value_in attrs) ≤ 4068 }
    ensures { OnOk result (groups_in groups.new.items ≡ groups_in groups.old.items ++ (value_in attrs.entry, prefix ∷ []) ∷ []) }
{
    let mut prefixes = Vec::new(alloc);
    prefixes.push(prefix)?;
    groups.push(Group { attrs, prefixes })?;
    Ok(())
}
