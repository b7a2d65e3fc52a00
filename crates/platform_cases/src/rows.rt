//! How a row is run: a platform of its roster, each record of its lists in turn, and what is put out compared.

ghost use Rattle.std.specs.Prelude.{◌≤◌, ◌<◌, ◌≡◌, length, IfOk};

use feed_format::{Kind, Out, Record};
use platform_core::Platform;
use rcp_base::{NoMemory, Slot};
use rcp_model::Assigned;
use roster::read;
use std::alloc::Global;
use std::test::Fail;

/// A record of a feed: its kind, its connection, and its body in pieces.
pub type Fed<'a> = (Kind, u32, &'a [&'a [u8]]);

/// A record that is put out: its letter, its connection, and its body in pieces.
pub type Put<'a> = (u8, u32, &'a [&'a [u8]]);

/// What it shows, the roster, the records of each list in turn, and what is put out for them.
pub type Row<'a> = (&'a str, &'a [u8], &'a [&'a [Fed<'a>]], &'a [Put<'a>]);

/// All pending prefixes are worked.
pub const DRAIN: &[Fed] = &[(Kind::Drain, 0, &[])];

/// Each row's records have its output.
pub fn check(alloc: Global, rows: &[Row]) -> Result<(), Fail> {
    for (shows, roster, fed, wanted) in rows {
        let mut platform = new(alloc, roster)?;
        if !puts(&mut platform, alloc, fed, wanted)? {
            return Err(*shows)?;
        }
    }
    Ok(())
}

/// The platform of a roster, with no session.
pub fn new(alloc: Global, text: &[u8]) -> Result<Platform, Fail> {
    if text.len() > 65536 {
        return Err("a long roster")?;
    }
    let roster = read(alloc, text).map_err(|_| "no roster")?;
    Ok(Platform::new(alloc, roster)?)
}

/// Whether these records are put out for those of the lists.
pub fn puts(
    platform: &mut Platform,
    alloc: Global,
    lists: &[&[Fed]],
    wanted: &[Put],
) -> Result<bool, Fail> {
    let mut found = Vec::new(alloc);
    for list in lists {
        for fed in *list {
            act(platform, &record_of(alloc, fed)?, &mut found)?;
        }
    }
    Ok(found.as_slice() == octets_of(alloc, wanted)?.as_slice())
}

/// Acts on a record, if it may come, and adds what is put out.
fn act(platform: &mut Platform, item: &Record, found: &mut Vec<u8>) -> Result<(), Fail> {
    if !platform.may_step(item) {
        return Err("a record that may not come")?;
    }
    for out in &platform.step(item)? {
        add_out(found, out)?;
    }
    Ok(())
}

fn add_out(octets: &mut Vec<u8>, out: &Out) -> Result<(), Fail> {
    add(octets, out.kind, out.connection, &out.body)
}

/// Adds a record.
fn add(octets: &mut Vec<u8>, kind: u8, connection: u32, body: &[u8]) -> Result<(), Fail> {
    octets.push(kind)?;
    octets.extend_from_slice(&connection.to_be_bytes())?;
    octets.extend_from_slice(&u32::try_from(body.len())?.to_be_bytes())?;
    octets.extend_from_slice(body)?;
    Ok(())
}

pub fn record_of(alloc: Global, fed: &Fed) -> Result<Record, NoMemory> {
    let (kind, source, pieces) = fed;
    Ok(Record {
        kind: *kind,
        source: *source,
        body: joined(alloc, pieces)?,
    })
}

fn octets_of(alloc: Global, puts: &[Put]) -> Result<Vec<u8>, Fail> {
    let mut octets = Vec::new(alloc);
    for (kind, connection, pieces) in puts {
        add(&mut octets, *kind, *connection, &joined(alloc, pieces)?)?;
    }
    Ok(octets)
}

fn joined(alloc: Global, pieces: &[&[u8]]) -> Result<Vec<u8>, NoMemory> {
    let mut octets = Vec::new(alloc);
    for piece in pieces {
        octets.extend_from_slice(piece)?;
    }
    Ok(octets)
}

/// The slot, where it is one of the platform's.
pub fn slot_of(platform: &Platform, slot: u16) -> Result<Slot, Fail>
    ensures { IfOk result (λ found. (found ≡ slot) × (slot < length platform.now.seen.roster.members)) }
{
    if slot >= platform.members() {
        return Err("no member")?;
    }
    Ok(Slot(slot))
}
