// Streams in pieces.
use super::{ALIVE, ANNOUNCEMENT, OPENING, SHORT_LENGTH};
use crate::Cutter;
use bgp_fault::Fault;
use std::alloc::{AllocError, Global};
use std::test::Fail;

// Gives the piece to the cutter, and puts type and body of each message that comes after the others. The fault, if one
// comes.
fn take_all(
    cutter: &mut Cutter,
    piece: &[u8],
    log: &mut Vec<u8>,
) -> Result<Option<Fault>, AllocError> {
    let mut rest = piece;
    for _ in 0..8 {
        let taken = cutter.feed(rest);
        let (_, left) = rest.split_at(taken);
        rest = left;
        match cutter.next() {
            Ok(Some(message)) => {
                log.push(message.kind)?;
                log.extend_from_slice(message.body)?;
            }
            Ok(None) => return Ok(None),
            Err(fault) => return Ok(Some(fault)),
        }
    }
    Ok(None)
}

// A message of each type, one after another, and then a part of a header.
fn stream(alloc: Global) -> Result<Vec<u8>, AllocError> {
    let mut octets = Vec::new(alloc);
    octets.extend_from_slice(&OPENING)?;
    octets.extend_from_slice(&ALIVE)?;
    octets.extend_from_slice(&ANNOUNCEMENT)?;
    octets.extend_from_slice(&SHORT_LENGTH)?;
    octets.extend_from_slice(&ALIVE[..7])?;
    Ok(octets)
}

// Their types and bodies.
fn wanted(alloc: Global) -> Result<Vec<u8>, AllocError> {
    let mut log = Vec::new(alloc);
    log.push(1)?;
    log.extend_from_slice(&OPENING[19..])?;
    log.push(4)?;
    log.push(2)?;
    log.extend_from_slice(&ANNOUNCEMENT[19..])?;
    log.push(3)?;
    log.extend_from_slice(&SHORT_LENGTH[19..])?;
    Ok(log)
}

#[test]
fn a_cut_at_any_octet_gives_the_same_messages(rt: HostRuntime) -> Result<(), Fail> {
    let alloc = rt.alloc();
    let octets = stream(alloc)?;
    let wanted = wanted(alloc)?;
    for cut in 0..octets.len() + 1 {
        let (front, back) = octets.split_at(cut);
        let mut cutter = Cutter::new();
        let mut log = Vec::new(alloc);
        assert_eq!(rt; take_all(&mut cutter, front, &mut log)?, None);
        assert_eq!(rt; take_all(&mut cutter, back, &mut log)?, None);
        assert_eq!(rt; log.as_slice(), wanted.as_slice(), "cut at {cut}");
    }
    Ok(())
}

#[test]
fn pieces_of_any_length_give_the_same_messages(rt: HostRuntime) -> Result<(), Fail> {
    let alloc = rt.alloc();
    let octets = stream(alloc)?;
    let wanted = wanted(alloc)?;
    for count in [1, 2, 3, 19, 20, 130] {
        let mut cutter = Cutter::new();
        let mut log = Vec::new(alloc);
        for piece in octets.chunks(count) {
            assert_eq!(rt; take_all(&mut cutter, piece, &mut log)?, None);
        }
        assert_eq!(rt; log.as_slice(), wanted.as_slice(), "pieces of {count}");
    }
    Ok(())
}

#[test]
fn a_message_of_4096_octets_is_held_and_not_one_octet_more(rt: HostRuntime) -> Result<(), Fail> {
    let mut octets = [0; 4097];
    octets[..19].copy_from_slice(&ANNOUNCEMENT[..19]);
    octets[16] = 0x10;
    octets[17] = 0x00;
    let mut cutter = Cutter::new();
    assert_eq!(rt; cutter.feed(&octets), 4096);
    assert_eq!(rt; cutter.feed(&octets), 0);
    let Ok(Some(message)) = cutter.next() else {
        return Err("no message".into());
    };
    assert_eq!(rt; message.body.len(), 4077);
    assert!(rt; matches!(cutter.next(), Ok(None)));
    Ok(())
}
