//! The text of the tables of a platform.

ghost use Rattle.std.specs.Prelude.{◌≡◌, ◌<◌, ◌++◌, length, IfOk, OnOk};
ghost use Rattle.feed_meaning.specs.Platform.{Platform as Defined};
ghost use Rattle.platform_laws.specs.Platforms.{IsSeen};
ghost use Rattle.rcp_run.specs.Tables.{route_line, tables_text};
ghost use Rattle.rcp_run.specs.Entries.{AddsTable, AddsEntries, AddsEntry};
ghost use Rattle.rcp_base.specs.IpPrefix.{IsPrefix};

use path_attrs::path_text;
use platform_core::Platform;
use rcp_base::{NoMemory, Prefix, Slot};
use rcp_model::{Assigned, Route};
use std::alloc::Global;

/// The tables of the connected routers in roster order, and then the number of pending prefixes: `table ROUTER` and, by rising
/// prefix, `PREFIX next-hop ADDRESS local-pref N path PATH` for each entry, at a pending prefix too; last `pending N`.
///
/// `NoMemory` comes where there was no room for the text. It takes one look-up for each router and entry.
pub fn tables_of(alloc: Global, platform: &Platform) -> Result<Vec<u8>, NoMemory>
    ensures { IfOk result (λ text. (defined : Defined) → IsSeen defined platform.now.seen → text.items ≡ tables_text defined) }
{
    let mut text = Vec::new(alloc);
    for number in 0..platform.members() {
        put_table(&mut text, alloc, platform, Slot(number))?;
    }
    let line = format!(in alloc; "pending {}\n", platform.pending())?;
    text.extend_from_slice(line.as_bytes())?;
    Ok(text)
}

/// Puts the table of a slot at the end, where its router is connected.
fn put_table(
    text: &mut Vec<u8>,
    alloc: Global,
    platform: &Platform,
    slot: Slot,
) -> Result<(), NoMemory>
    requires { slot < length platform.now.seen.roster.members }
    ensures { OnOk result (AddsTable platform.now.seen slot text.old.items text.new.items) }
{
    if !platform.connected(slot) {
        return Ok(());
    }
    let line = format!(in alloc; "table {}\n", platform.router(slot))?;
    text.extend_from_slice(line.as_bytes())?;
    put_entries(text, alloc, platform, slot)
}

/// Puts the entries of a slot at the end, by rising prefix.
fn put_entries(
    text: &mut Vec<u8>,
    alloc: Global,
    platform: &Platform,
    slot: Slot,
) -> Result<(), NoMemory>
    requires { slot < length platform.now.seen.roster.members }
    ensures { OnOk result (AddsEntries platform.now.seen slot text.old.items text.new.items) }
{
    let mut last = None;
    while let Some(prefix) = platform.next_entry(slot, last) {
        put_entry(text, alloc, platform, slot, prefix)?;
        last = Some(prefix);
    }
    Ok(())
}

/// Puts the entry of a slot for a prefix at the end, where there is one.
fn put_entry(
    text: &mut Vec<u8>,
    alloc: Global,
    platform: &Platform,
    slot: Slot,
    prefix: Prefix,
) -> Result<(), NoMemory>
    requires { slot < length platform.now.seen.roster.members }
    ensures entry { OnOk result (AddsEntry platform.now.seen slot prefix text.old.items text.new.items) }
    ensures in_form { OnOk result (IsPrefix prefix) }
{
    let _in_form = prefix.len();
    match platform.table(slot, prefix) {
        Some(route) => put_route(text, alloc, prefix, route),
        None => Ok(()),
    }
}

/// Puts the line of a route at the end.
fn put_route(
    text: &mut Vec<u8>,
    alloc: Global,
    prefix: Prefix,
    route: &Route,
) -> Result<(), NoMemory>
    ensures { OnOk result (text.new.items ≡ text.old.items ++ route_line prefix route.now.next_hop route.now.pref route.now.attrs) }
{
    let front = format!(in alloc;
        "{prefix} next-hop {} local-pref {} path ",
        route.next_hop, route.pref
    )?;
    text.extend_from_slice(front.as_bytes())?;
    let path = path_text(alloc, route.octets())?;
    text.extend_from_slice(&path)?;
    text.push(b'\n')?;
    Ok(())
}
