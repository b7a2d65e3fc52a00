// What is written, by the octets that go out.
use super::{ALIVE, ANNOUNCEMENT, OPENING, SHORT_LENGTH, WITHDRAWAL};
use crate::{MOST_OCTETS, OpenBody, write_keepalive, write_notification, write_open, write_update};
use bgp_fault::{
    BAD_MESSAGE_LENGTH, CEASE, Data, Fault, INVALID_ORIGIN_ATTRIBUTE, MESSAGE_HEADER_ERROR,
    MISSING_WELL_KNOWN_ATTRIBUTE, UNSPECIFIC, UPDATE_MESSAGE_ERROR,
};
use rcp_base::{Addr, Prefix};
use std::test::Fail;

#[test]
fn updates_are_written(rt: HostRuntime) -> Result<(), Fail> {
    let prefix = Prefix::new(0xcb007100, 24).ok_or("no prefix")?;
    let attrs = &ANNOUNCEMENT[23..48];
    let mut out = [0; MOST_OCTETS];
    assert_eq!(rt; write_update(&[], attrs, &[prefix], &mut out), Some(52));
    assert!(rt; out.starts_with(ANNOUNCEMENT.as_slice()));
    assert_eq!(rt; write_update(&[prefix], &[], &[], &mut out), Some(27));
    assert!(rt; out.starts_with(WITHDRAWAL.as_slice()));
    Ok(())
}

#[test]
fn a_message_of_4096_octets_fits_and_one_more_does_not(rt: HostRuntime) -> Result<(), Fail> {
    let prefix = Prefix::new(0xcb007100, 24).ok_or("no prefix")?;
    let attrs = [0; 4070];
    let mut out = [0; MOST_OCTETS];
    assert_eq!(rt;
        write_update(&[], &attrs[..4069], &[prefix], &mut out),
        Some(4096)
    );
    assert_eq!(rt; write_update(&[], &attrs, &[prefix], &mut out), None);
    Ok(())
}

#[test]
fn an_open_and_a_keepalive_are_written(rt: HostRuntime) {
    let mut out = [0; MOST_OCTETS];
    let offer = OpenBody {
        as_number: 65000,
        hold: 90,
        id: Addr(0x0a0000fe),
    };
    assert_eq!(rt; write_open(&offer, &mut out), 29);
    assert!(rt; out.starts_with(OPENING.as_slice()));
    assert_eq!(rt; write_keepalive(&mut out), 19);
    assert!(rt; out.starts_with(ALIVE.as_slice()));
}

#[test]
fn notifications_are_written(rt: HostRuntime) {
    let mut out = [0; MOST_OCTETS];
    let length = Fault {
        code: MESSAGE_HEADER_ERROR,
        sub: BAD_MESSAGE_LENGTH,
        extra: Data::Pair(18),
    };
    assert_eq!(rt; write_notification(&length, &[], &mut out), 23);
    assert!(rt; out.starts_with(SHORT_LENGTH.as_slice()));
    // The ORIGIN of the value 3 is the fourth to seventh octet of what was read.
    let body = [0, 0, 0, 4, 0x40, 1, 1, 3];
    let origin = Fault {
        code: UPDATE_MESSAGE_ERROR,
        sub: INVALID_ORIGIN_ATTRIBUTE,
        extra: Data::Span { start: 4, len: 4 },
    };
    assert_eq!(rt; write_notification(&origin, &body, &mut out), 25);
    assert!(rt; out[16..].starts_with(&[0, 25, 3, 3, 6, 0x40, 1, 1, 3]));
    let missing = Fault {
        code: UPDATE_MESSAGE_ERROR,
        sub: MISSING_WELL_KNOWN_ATTRIBUTE,
        extra: Data::Octet(3),
    };
    assert_eq!(rt; write_notification(&missing, &[], &mut out), 22);
    assert!(rt; out[16..].starts_with(&[0, 22, 3, 3, 3, 3]));
    let taken = Fault {
        code: CEASE,
        sub: UNSPECIFIC,
        extra: Data::None,
    };
    assert_eq!(rt; write_notification(&taken, &[], &mut out), 21);
    assert!(rt; out[16..].starts_with(&[0, 21, 3, 6, 0]));
}
