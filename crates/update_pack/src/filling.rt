//! The messages of groups: as many prefixes in each as it has room for.

ghost use Rattle.std.specs.Prelude.{◌≡◌, ◌+◌, ◌≤◌, ◌<◌, ◌++◌, ◌∷◌, [], List, map, length, take, drop, flat_map, IfOk, OnOk};
ghost use Rattle.rcp_base.specs.IpPrefix.{prefix_octets};
ghost use Rattle.rcp_model.specs.Packing.{update_of, fill, group_updates};
ghost use Rattle.update_pack.specs.Values.{value_in, octet_count};
ghost use Rattle.update_pack.specs.Shown.{group_in, groups_in};

use crate::group::Group;
use bgp_msg::{MOST_OCTETS, update_message};
use rcp_base::{NoMemory, Prefix};
use std::alloc::Global;

// The octets of an UPDATE without withdrawn routes, attributes and NLRI.
const LEAST_UPDATE: usize = 23;

/// The messages of all groups, group by group.
pub(crate) fn write_groups(alloc: Global, groups: &[Group<'_>]) -> Result<Vec<Vec<u8>>, NoMemory>
    ensures { IfOk result (λ messages. map (λ m. m.items) messages.items ≡ flat_map group_updates (groups_in groups.now)) }
{
    let mut messages = Vec::new(alloc);
    for group in groups {
        write_group(alloc, group, &mut messages)?;
    }
    Ok(messages)
}

/// Puts the messages of a group after those that are there.
fn write_group(
    alloc: Global,
    group: &Group<'_>,
    messages: &mut Vec<Vec<u8>>,
) -> Result<(), NoMemory>
    ensures { OnOk result (map (λ m. m.items) messages.new.items ≡ map (λ m. m.items) messages.old.items ++ group_updates (group_in group.now)) }
{
    let attrs = group.attrs;
    let mut rest = group.prefixes.as_slice();
    while !rest.is_empty() {
        let (piece, more) = rest.split_at(front(attrs, rest));
        messages.push(write_piece(alloc, attrs, piece)?)?;
        rest = more;
    }
    Ok(())
}

/// How many of the prefixes the first message of them holds.
fn front(attrs: Option<&[u8]>, prefixes: &[Prefix]) -> usize
    requires any { 0 < length prefixes.now }
    requires short { octet_count (value_in attrs) ≤ 4068 }
    ensures within { result ≤ length prefixes.now }
    ensures some { 0 < result }
    ensures piece { fill (value_in attrs.entry) prefixes.now ≡ take result prefixes.now ∷ fill (value_in attrs.entry) (drop result prefixes.now) }
    ensures fits { length (update_of (value_in attrs.entry) (take result prefixes.now)) ≤ 4096 }
{
    let room = MOST_OCTETS - LEAST_UPDATE - attrs_len(attrs);
    let mut octets = 0;
    for (count, prefix) in prefixes.iter().enumerate() {
        octets += prefix_len(prefix);
        if octets > room {
            return count;
        }
    }
    prefixes.len()
}

/// How many octets the attributes have.
fn attrs_len(attrs: Option<&[u8]>) -> usize
    ensures { result ≡ octet_count (value_in attrs.entry) }
{
    match attrs {
        Some(octets) => octets.len(),
        None => 0,
    }
}

/// How many octets the prefix has: its length, and as many octets of its address as hold so many bits.
fn prefix_len(prefix: &Prefix) -> usize
    ensures value { result ≡ length (prefix_octets prefix.now) }
    ensures short { result ≤ 5 }
{
    1 + (usize::from(prefix.len()) + 7) / 8
}

/// The UPDATE that gives each prefix of a piece these attributes, or withdraws it.
pub(crate) fn write_piece(
    alloc: Global,
    attrs: Option<&[u8]>,
    piece: &[Prefix],
) -> Result<Vec<u8>, NoMemory>
    requires { length (update_of (value_in attrs) piece.now) ≤ 4096 }
    ensures { IfOk result (λ message. message.items ≡ update_of (value_in attrs.entry) piece.now) }
{
    match attrs {
        None => update_message(alloc, piece, &[], &[]),
        Some(octets) => update_message(alloc, &[], octets, piece),
    }
}
