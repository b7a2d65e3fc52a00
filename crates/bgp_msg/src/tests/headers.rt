// Headers and their faults.
use super::ALIVE;
use crate::Cutter;
use bgp_fault::{Data, Fault};
use std::test::Fail;

fn header_error(sub: u8, extra: Data) -> Option<Fault> {
    Some(Fault {
        code: 1,
        sub,
        extra,
    })
}

#[test]
fn a_header_is_judged_with_its_last_octet(rt: HostRuntime) -> Result<(), Fail> {
    // The last octet of the marker, the length and the type, and the fault.
    let table: [(u8, u16, u8, Option<Fault>); 19] = [
        (0xff, 19, 4, None),
        (0xff, 29, 1, None),
        (0xff, 23, 2, None),
        (0xff, 21, 3, None),
        (0xff, 4096, 1, None),
        (0xff, 4096, 2, None),
        (0xff, 4096, 3, None),
        (0xfe, 19, 4, header_error(1, Data::None)),
        (0xfe, 18, 9, header_error(1, Data::None)),
        (0xff, 18, 4, header_error(2, Data::Pair(0x0012))),
        (0xff, 18, 9, header_error(2, Data::Pair(0x0012))),
        (0xff, 4097, 2, header_error(2, Data::Pair(0x1001))),
        (0xff, 20, 4, header_error(2, Data::Pair(0x0014))),
        (0xff, 28, 1, header_error(2, Data::Pair(0x001c))),
        (0xff, 22, 2, header_error(2, Data::Pair(0x0016))),
        (0xff, 20, 3, header_error(2, Data::Pair(0x0014))),
        (0xff, 19, 0, header_error(3, Data::Octet(0))),
        (0xff, 19, 5, header_error(3, Data::Octet(5))),
        (0xff, 4096, 255, header_error(3, Data::Octet(255))),
    ];
    for (mark, len, kind, wanted) in table {
        let mut header = ALIVE;
        header[15] = mark;
        header[16..18].copy_from_slice(&len.to_be_bytes());
        header[18] = kind;
        let mut cutter = Cutter::new();
        assert_eq!(rt; cutter.feed(&header[..18]), 18);
        assert!(rt;
            matches!(cutter.next(), Ok(None)),
            "too early at {len}, {kind}"
        );
        assert_eq!(rt; cutter.feed(&header[18..]), 1);
        assert_eq!(rt; cutter.next().err(), wanted, "at {mark}, {len}, {kind}");
        if wanted.is_some() {
            assert_eq!(rt; cutter.feed(&ALIVE), 0);
            assert_eq!(rt;
                cutter.next().err(),
                wanted,
                "again at {mark}, {len}, {kind}"
            );
        }
    }
    Ok(())
}

#[test]
fn each_octet_of_the_marker_counts(rt: HostRuntime) {
    for place in 0..16usize {
        let mut header = ALIVE;
        if place < 16 {
            header[place] = 0;
        }
        let mut cutter = Cutter::new();
        cutter.feed(&header);
        assert_eq!(rt;
            cutter.next().err(),
            header_error(1, Data::None),
            "at {place}"
        );
    }
}
