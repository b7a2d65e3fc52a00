//! An outbox over links in memory.

use super::*;
use outside::MemLink;
use std::alloc::Global;
use std::sync::Wait;
use std::test::Fail;

/// What is seen of an outbox and of its link.
#[derive(Debug, PartialEq, Drop)]
struct Seen {
    taken: Vec<u8>,
    updates: u64,
    failed: bool,
    empty: bool,
}

/// A message of a type, without a body beyond so many zeros (RFC 4271 section 4.1).
fn message(alloc: Global, kind: u8, zeros: u8) -> Result<Vec<u8>, Fail> {
    let mut octets = Vec::new(alloc);
    for _ in 0..16 {
        octets.push(0xff)?;
    }
    octets.push(0)?;
    octets.push(19 + zeros % 100)?;
    octets.push(kind)?;
    for _ in 0..zeros {
        octets.push(0)?;
    }
    Ok(octets)
}

/// An outbox in which an UPDATE without routes and then a KEEPALIVE wait.
fn two_messages(alloc: Global) -> Result<Outbox, Fail> {
    let mut updates = Vec::new(alloc);
    updates.push(message(alloc, 2, 4)?)?;
    let mut others = Vec::new(alloc);
    others.push(message(alloc, 4, 0)?)?;
    let mut out = Outbox::new(alloc);
    out.push_updates(updates)?;
    out.push(others)?;
    Ok(out)
}

/// Both messages, one after the other.
fn all_octets(alloc: Global) -> Result<Vec<u8>, Fail> {
    let mut octets = message(alloc, 2, 4)?;
    octets.extend_from_slice(&message(alloc, 4, 0)?)?;
    Ok(octets)
}

/// Writes two messages to a link that takes 5 octets at once, and whose writes of these numbers fail.
fn written<R: Wait>(rt: &R, alloc: Global, write_fails: Vec<u64>) -> Result<Seen, Fail> {
    let mut link = MemLink::new(Vec::new(alloc), Vec::new(alloc), write_fails, 5);
    let mut out = two_messages(alloc)?;
    out.write_to(rt, &mut link);
    out.write_last(rt, &mut link);
    let mut taken = Vec::new(alloc);
    taken.extend_from_slice(link.taken())?;
    Ok(Seen {
        taken,
        updates: out.updates(),
        failed: out.has_failed(),
        empty: out.is_empty(),
    })
}

#[test]
fn messages_go_out_piece_by_piece(rt: HostRuntime) -> Result<(), Fail> {
    let alloc = rt.alloc();
    let seen = written(&rt, alloc, Vec::new(alloc))?;
    let all = Seen {
        taken: all_octets(alloc)?,
        updates: 1,
        failed: false,
        empty: true,
    };
    assert_eq!(rt; seen, all);
    Ok(())
}

#[test]
fn nothing_is_written_after_a_failure(rt: HostRuntime) -> Result<(), Fail> {
    let alloc = rt.alloc();
    let mut fails = Vec::new(alloc);
    fails.push(3)?;
    let seen = written(&rt, alloc, fails)?;
    let mut taken = all_octets(alloc)?;
    taken.truncate(10);
    let torn = Seen {
        taken,
        updates: 0,
        failed: true,
        empty: false,
    };
    assert_eq!(rt; seen, torn);
    Ok(())
}

#[test]
fn an_update_waits_until_its_last_octet_is_written(rt: HostRuntime) -> Result<(), Fail> {
    let alloc = rt.alloc();
    let mut out = two_messages(alloc)?;
    let mut fails = Vec::new(alloc);
    fails.push(5)?;
    let mut link = MemLink::new(Vec::new(alloc), Vec::new(alloc), fails, 5);
    assert!(rt; out.has_updates());
    out.rest_and_write(&rt, &mut link, 1);
    assert!(rt; out.has_updates());
    Ok(())
}
