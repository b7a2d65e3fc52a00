// The sections of an UPDATE, and their prefixes.
use super::ANNOUNCEMENT;
use crate::update::next_prefix;
use crate::{check_prefixes, read_update};
use bgp_fault::{Data, Fault};
use std::test::Fail;

fn update_error(sub: u8) -> Option<Fault> {
    Some(Fault {
        code: 3,
        sub,
        extra: Data::None,
    })
}

#[test]
fn an_update_is_read_by_its_sections(rt: HostRuntime) -> Result<(), Fail> {
    let Ok(update) = read_update(&ANNOUNCEMENT[19..]) else {
        return Err("not read".into());
    };
    assert!(rt; update.withdrawn.is_empty());
    assert_eq!(rt; update.attrs, &ANNOUNCEMENT[23..48]);
    assert_eq!(rt; update.nlri, &ANNOUNCEMENT[48..]);
    Ok(())
}

#[test]
fn section_lengths_that_pass_the_message_are_refused(rt: HostRuntime) {
    let malformed = update_error(1);
    let table: [(&[u8], Option<Fault>); 12] = [
        (&[0, 0, 0, 0], None),
        (&[0, 0, 0, 0, 0], None),
        (&[0, 1, 0, 0, 0], None),
        (&[0, 0, 0, 1, 0], None),
        (&[], malformed),
        (&[0], malformed),
        (&[0, 0], malformed),
        (&[0, 0, 0], malformed),
        (&[0, 1, 0, 0], malformed),
        (&[0, 0, 0, 1], malformed),
        (&[0, 1, 0, 0, 1], malformed),
        (&[0xff, 0xff, 0, 0], malformed),
    ];
    for (body, wanted) in table {
        assert_eq!(rt; read_update(body).err(), wanted, "at {body:?}");
    }
}

#[test]
fn malformed_prefixes_are_refused(rt: HostRuntime) {
    let malformed = update_error(10);
    let table: [(&[u8], Option<Fault>); 10] = [
        (&[], None),
        (&[0], None),
        (&[32, 10, 0, 0, 1], None),
        (&[8, 10, 24, 203, 0, 113], None),
        (&[33, 10, 0, 0, 1, 0], malformed),
        (&[255], malformed),
        (&[32, 10, 0, 0], malformed),
        (&[1], malformed),
        (&[0, 9, 10], malformed),
        (&[24, 203, 0, 113, 33, 0, 0, 0, 0, 0], malformed),
    ];
    for (section, wanted) in table {
        assert_eq!(rt; check_prefixes(section).err(), wanted, "at {section:?}");
    }
}

#[test]
fn prefixes_come_in_their_order_and_twice_where_they_are_there_twice(
    rt: HostRuntime,
) -> Result<(), Fail> {
    // 203.0.113.0/24, 10.0.0.0/8, and 203.0.113.0/24 again.
    let section = [24, 203, 0, 113, 8, 10, 24, 203, 0, 113];
    if check_prefixes(&section).is_err() {
        return Err("malformed".into());
    }
    let Some((first, place)) = next_prefix(&section, 0) else {
        return Err("no first prefix".into());
    };
    assert_eq!(rt; (first.addr(), first.len(), place), (0xcb007100, 24, 4));
    let Some((second, place)) = next_prefix(&section, place) else {
        return Err("no second prefix".into());
    };
    assert_eq!(rt; (second.addr(), second.len(), place), (0x0a000000, 8, 6));
    let Some((third, place)) = next_prefix(&section, place) else {
        return Err("no third prefix".into());
    };
    assert_eq!(rt; (third.addr(), third.len(), place), (0xcb007100, 24, 10));
    assert!(rt; next_prefix(&section, place).is_none());
    Ok(())
}
