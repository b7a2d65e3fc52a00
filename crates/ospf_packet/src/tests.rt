// Streams that are cut in two, and headers that no packet has.
use super::*;
use std::alloc::{AllocError, Global};
use std::test::Fail;

const HELLO: [u8; 24] = [
    2, 1, 0, 24, 10, 0, 0, 1, 0, 0, 0, 0, 0, 0, 0, 0, 0, 0, 0, 0, 0, 0, 0, 0,
];

const UPDATE: [u8; 28] = [
    2, 4, 0, 28, 10, 0, 0, 1, 0, 0, 0, 0, 0, 0, 0, 0, 0, 0, 0, 0, 0, 0, 0, 0, 0, 0, 0, 0,
];

// Feeds the piece, and puts each packet that is whole after the others.
fn take_all(
    framer: &mut Framer,
    piece: &[u8],
    out: &mut Vec<Vec<u8>>,
    alloc: Global,
) -> Result<Option<u64>, AllocError> {
    let mut rest = piece;
    for _ in 0..8 {
        let taken = framer.feed(rest);
        let (_, left) = rest.split_at(taken);
        rest = left;
        match framer.next() {
            Ok(None) => return Ok(None),
            Ok(Some(packet)) => out.push(packet.to_vec(alloc)?)?,
            Err(e) => return Ok(Some(e.place)),
        }
    }
    Ok(None)
}

fn stream(alloc: Global, parts: &[&[u8]]) -> Result<Vec<u8>, AllocError> {
    let mut octets = Vec::new(alloc);
    for part in parts {
        octets.extend_from_slice(part)?;
    }
    Ok(octets)
}

#[test]
fn any_cut_gives_the_same_packets(rt: HostRuntime) -> Result<(), Fail> {
    let alloc = rt.alloc();
    let octets = stream(alloc, &[&HELLO, &UPDATE, &HELLO[..5]])?;
    for cut in 0..octets.len() + 1 {
        let (front, back) = octets.split_at(cut);
        let mut framer = Framer::new(alloc)?;
        let mut packets = Vec::new(alloc);
        assert_eq!(rt; take_all(&mut framer, front, &mut packets, alloc)?, None);
        assert_eq!(rt; take_all(&mut framer, back, &mut packets, alloc)?, None);
        assert_eq!(rt; packets.len(), 2);
        assert_eq!(rt; packets[0].as_slice(), HELLO.as_slice());
        assert_eq!(rt; packets[1].as_slice(), UPDATE.as_slice());
    }
    Ok(())
}

#[test]
fn a_header_that_no_packet_has_is_told_with_its_place(rt: HostRuntime) -> Result<(), Fail> {
    let alloc = rt.alloc();
    let table: [(u8, u8, u8, Option<u64>); 6] = [
        (3, 1, 24, Some(48)),
        (2, 1, 23, Some(48)),
        (2, 4, 27, Some(48)),
        (2, 4, 28, None),
        (2, 5, 24, None),
        (2, 5, 25, None),
    ];
    for (version, kind, len, place) in table {
        let mut header = HELLO;
        header[0] = version;
        header[1] = kind;
        header[3] = len;
        let octets = stream(alloc, &[&HELLO, &HELLO, &header])?;
        let mut framer = Framer::new(alloc)?;
        let mut packets = Vec::new(alloc);
        assert_eq!(rt;
            take_all(&mut framer, &octets, &mut packets, alloc)?,
            place,
            "at {kind}, {len}"
        );
        assert_eq!(rt;
            take_all(&mut framer, &HELLO, &mut packets, alloc)?,
            place,
            "once more at {kind}, {len}"
        );
    }
    Ok(())
}
