// What is written is read, each fault, and walks over packets.
ghost use Rattle.std.specs.Prelude.{◌≡◌, ◌≤◌, length, IfOk};

use super::*;
use rcp_base::RouterId;
use std::alloc::Global;
use std::test::Fail;

// A router LSA of 10.0.0.1 with one link to 10.0.0.2 of metric 11, which has one TOS metric besides. The checksum is
// that of another program, which goes by RFC 905 annex B.
const WITH_TOS: [u8; 40] = [
    0, 9, 2, 1, 10, 0, 0, 1, 10, 0, 0, 1, 128, 0, 0, 1, 255, 22, 0, 40, 0, 0, 0, 1, 10, 0, 0, 2, 0,
    0, 0, 0, 1, 1, 0, 11, 8, 0, 0, 5,
];

fn sample(alloc: Global, sequence: i32, kind: u8) -> Result<Lsa, Fail>
    ensures { IfOk result (λ lsa. (lsa.header.age ≤ 3600) × (length lsa.content ≤ 5459)) }
{
    let link = LsaLink {
        id: 0x0a00_0002,
        kind,
        metric: 65_535,
    };
    Ok(Lsa {
        router: RouterId(0x0a00_0001),
        age: 901,
        sequence,
        checksum: 0,
        links: vec![in alloc; link]?,
    })
}

#[test]
fn what_is_written_is_read_with_its_sequence_and_type(rt: HostRuntime) -> Result<(), Fail> {
    let alloc = rt.alloc();
    for (sequence, kind) in [
        (i32::MIN, POINT_TO_POINT),
        (i32::MAX, 255),
        (-1, TRANSIT),
        (0, VIRTUAL),
    ] {
        let mut out = [7; 64];
        let written = sample(alloc, sequence, kind)?;
        assert_eq!(rt; write(&written, &mut out), Some(36));
        let (octets, rest) = out.split_at(36);
        assert_eq!(rt; rest, [7; 28].as_slice());
        let lsa = read(alloc, octets)?;
        assert_eq!(rt;
            (lsa.router, lsa.age, lsa.sequence),
            (RouterId(0x0a00_0001), 901, sequence)
        );
        assert_eq!(rt; lsa.links.as_slice(), written.links.as_slice());
    }
    Ok(())
}

#[test]
fn an_lsa_of_256_links_is_read(rt: HostRuntime) -> Result<(), Fail> {
    let alloc = rt.alloc();
    let mut written = sample(alloc, 1, STUB)?;
    let link = LsaLink {
        id: 1,
        kind: STUB,
        metric: 7,
    };
    written.links = vec![in alloc; link; 256]?;
    let mut out = [0; 3096];
    assert_eq!(rt; write(&written, &mut out), Some(3096));
    let lsa = read(alloc, &out)?;
    assert_eq!(rt; lsa.links.as_slice(), written.links.as_slice());
    assert_eq!(rt; number_of_fault(LsaFault::Owner), 4);
    Ok(())
}

#[test]
fn no_room_writes_nothing(rt: HostRuntime) -> Result<(), Fail> {
    let mut out = [7; 35];
    assert_eq!(rt; write(&sample(rt.alloc(), 1, STUB)?, &mut out), None);
    assert_eq!(rt; out.as_slice(), [7; 35].as_slice());
    Ok(())
}

#[test]
fn a_link_with_a_tos_metric_is_read(rt: HostRuntime) -> Result<(), Fail> {
    let lsa = read(rt.alloc(), &WITH_TOS)?;
    let link = LsaLink {
        id: 0x0a00_0002,
        kind: POINT_TO_POINT,
        metric: 11,
    };
    assert_eq!(rt; lsa.links.as_slice(), [link].as_slice());
    assert_eq!(rt;
        (lsa.age, lsa.sequence, lsa.checksum),
        (9, i32::MIN + 1, 0xff16)
    );
    Ok(())
}

// The answer for the octets with these in the place of an octet and of the checksum.
fn answer(
    alloc: Global,
    place: usize,
    octet: u8,
    checksum: [u8; 2],
    len: usize,
) -> Option<LsaRefusal>
    requires place_in { place ≤ 39 }
    requires len_in { len ≤ 40 }
{
    let mut octets = WITH_TOS;
    octets[place] = octet;
    let [high, low] = checksum;
    octets[16] = high;
    octets[17] = low;
    let (front, _) = octets.split_at(len);
    read(alloc, front).err()
}

#[test]
fn each_fault_comes_in_its_order(rt: HostRuntime) {
    let alloc = rt.alloc();
    // An age is no part of the sums.
    assert_eq!(rt; answer(alloc, 1, 200, [255, 22], 40), None);
    let short = Some(LsaRefusal::Fault(LsaFault::Short));
    assert_eq!(rt; answer(alloc, 1, 9, [255, 22], 23), short);
    let sums = Some(LsaRefusal::Fault(LsaFault::Checksum));
    assert_eq!(rt; answer(alloc, 35, 12, [255, 22], 40), sums);
    assert_eq!(rt; answer(alloc, 35, 11, [0, 0], 40), sums);
    assert_eq!(rt; answer(alloc, 35, 11, [255, 22], 24), sums);
    let links = Some(LsaRefusal::Fault(LsaFault::Links));
    assert_eq!(rt; answer(alloc, 23, 2, [6, 15], 40), links);
    let owner = Some(LsaRefusal::Fault(LsaFault::Owner));
    assert_eq!(rt; answer(alloc, 7, 2, [245, 31], 40), owner);
}

#[test]
fn of_two_faults_the_first_is_told(rt: HostRuntime) {
    // The last octet of the link state ID, the count of links, the checksum, and how many octets there are. The
    // advertising router is 10.0.0.1, and there is one link.
    let rows = [
        (1, 1, [184, 131], 23, LsaFault::Short),
        (1, 2, [190, 124], 23, LsaFault::Short),
        (2, 1, [174, 140], 23, LsaFault::Short),
        (1, 2, [255, 22], 40, LsaFault::Checksum),
        (2, 1, [255, 22], 40, LsaFault::Checksum),
        (1, 1, [255, 22], 24, LsaFault::Checksum),
        (2, 2, [251, 24], 40, LsaFault::Links),
        (2, 1, [174, 140], 24, LsaFault::Links),
    ];
    for (id, count, checksum, len, want) in rows {
        let mut octets = WITH_TOS;
        octets[7] = id;
        octets[23] = count;
        let [high, low] = checksum;
        octets[16] = high;
        octets[17] = low;
        let (front, _) = octets.split_at(len.min(40));
        let found = read(rt.alloc(), front).err();
        assert_eq!(rt;
            found,
            Some(LsaRefusal::Fault(want)),
            "{id}, {count}, {len}"
        );
    }
}

// The lengths and types of a packet's LSAs, and the fault where there is one.
fn walk(alloc: Global, packet: &[u8]) -> Result<(Vec<(usize, u8)>, Option<LsaFault>), Fail>
    requires { 28 ≤ length packet.now }
{
    let mut found = Vec::new(alloc);
    let mut place = 28;
    for _step in 0..packet.len() {
        match next_lsa(packet, place) {
            None => return Ok((found, None)),
            Some(Err(fault)) => return Ok((found, Some(fault))),
            Some(Ok(lsa)) => {
                found.push(lsa)?;
                place += lsa.0;
            }
        }
    }
    Ok((found, None))
}

// A packet with this count, an LSA of type 1 and 24 octets, one of type 5 and 20 octets, and 19 octets more.
fn packet(count: u8) -> [u8; 91] {
    let mut octets = [0; 91];
    octets[27] = count;
    octets[31] = 1;
    octets[47] = 24;
    octets[55] = 5;
    octets[71] = 20;
    octets
}

#[test]
fn a_walk_ends_at_the_count_or_where_an_lsa_is_short(rt: HostRuntime) -> Result<(), Fail> {
    let alloc = rt.alloc();
    for (count, most, fault) in [
        (0, 0, None),
        (1, 1, None),
        (2, 2, None),
        (3, 2, Some(LsaFault::Short)),
    ] {
        let (found, end) = walk(alloc, &packet(count))?;
        let all = [(24, 1), (20, 5)];
        let (front, _) = all.split_at(most);
        assert_eq!(rt; found.as_slice(), front);
        assert_eq!(rt; end, fault);
    }
    let mut octets = packet(1);
    octets[47] = 19;
    assert_eq!(rt;
        walk(alloc, &octets)?.1,
        Some(LsaFault::Short),
        "less than a header"
    );
    octets[47] = 64;
    assert_eq!(rt;
        walk(alloc, &octets)?.1,
        Some(LsaFault::Short),
        "more than the packet"
    );
    Ok(())
}
