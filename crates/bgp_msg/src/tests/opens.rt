// OPENs and their faults, for a reader whose AS is 65000.
use super::OPENING;
use crate::{OpenBody, identifier_of, read_open};
use bgp_fault::{Data, Fault};
use rcp_base::Addr;
use std::test::Fail;

fn open_error(sub: u8, extra: Data) -> Option<Fault> {
    Some(Fault {
        code: 2,
        sub,
        extra,
    })
}

// An OPEN of this version, AS, hold time, length of the parameters and first octets of them.
fn fault_of(version: u8, as_number: u16, hold: u16, len: u8, parameters: &[u8]) -> Option<Fault> {
    let mut body = [0; 20];
    let count = parameters.len().min(10);
    body[0] = version;
    body[1..3].copy_from_slice(&as_number.to_be_bytes());
    body[3..5].copy_from_slice(&hold.to_be_bytes());
    body[9] = len;
    body[10..10 + count].copy_from_slice(&parameters[..count]);
    read_open(&body[..10 + count], 65000).err()
}

#[test]
fn an_open_is_read(rt: HostRuntime) -> Result<(), Fail> {
    let body = &OPENING[19..];
    let wanted = OpenBody {
        as_number: 65000,
        hold: 90,
        id: Addr(0x0a0000fe),
    };
    assert_eq!(rt; read_open(body, 65000).ok(), Some(wanted));
    assert_eq!(rt; identifier_of(body), Addr(0x0a0000fe));
    Ok(())
}

#[test]
fn the_first_fault_of_an_open_is_told(rt: HostRuntime) {
    let version = open_error(1, Data::Pair(4));
    let other_as = open_error(2, Data::None);
    let hold = open_error(6, Data::None);
    let length = open_error(0, Data::None);
    let unknown = open_error(4, Data::None);
    let table: [(u8, u16, u16, u8, &[u8], Option<Fault>); 22] = [
        (4, 65000, 90, 0, &[], None),
        (4, 65000, 0, 0, &[], None),
        (4, 65000, 3, 0, &[], None),
        (4, 65000, 90, 2, &[2, 0], None),
        (4, 65000, 90, 5, &[2, 1, 9, 2, 0], None),
        (3, 65000, 90, 0, &[], version),
        (5, 65001, 2, 1, &[], version),
        (4, 65001, 90, 0, &[], other_as),
        (4, 65001, 2, 1, &[], other_as),
        (4, 65000, 1, 0, &[], hold),
        (4, 65000, 2, 0, &[], hold),
        (4, 65000, 2, 1, &[], hold),
        (4, 65000, 90, 1, &[], length),
        (4, 65000, 90, 0, &[2, 0], length),
        (4, 65000, 90, 2, &[2, 0, 2], length),
        (4, 65000, 90, 1, &[2], length),
        (4, 65000, 90, 2, &[2, 1], length),
        (4, 65000, 90, 2, &[1, 1], length),
        (4, 65000, 90, 3, &[2, 0, 1], length),
        (4, 65000, 90, 2, &[1, 0], unknown),
        (4, 65000, 90, 3, &[1, 0, 2], unknown),
        (4, 65000, 90, 4, &[2, 0, 3, 0], unknown),
    ];
    for (number, as_number, seconds, len, parameters, wanted) in table {
        let found = fault_of(number, as_number, seconds, len, parameters);
        assert_eq!(rt;
            found,
            wanted,
            "version {number}, AS {as_number}, hold {seconds}, length {len}"
        );
    }
}
