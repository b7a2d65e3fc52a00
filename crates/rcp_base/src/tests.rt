use super::*;
use std::test::Fail;

fn prefix(text: &[u8]) -> Result<Prefix, Fail> {
    Ok(read_prefix(text).ok_or("no prefix")?)
}

#[test]
fn a_length_above_32_is_no_prefix(rt: HostRuntime) {
    for len in 0..=255u8 {
        assert_eq!(rt;
            Prefix::new(0xcb00_7105, len).is_none(),
            len > 32,
            "at {len}"
        );
    }
}

#[test]
fn prefixes_come_by_address_then_length(rt: HostRuntime) -> Result<(), Fail> {
    for (lower, higher) in [
        (b"0.0.0.0/0".as_slice(), b"10.0.0.0/8".as_slice()),
        (b"10.0.0.0/8".as_slice(), b"10.0.0.0/24".as_slice()),
        (b"10.0.0.0/24".as_slice(), b"10.0.1.0/24".as_slice()),
        (b"10.0.1.0/24".as_slice(), b"203.0.113.0/24".as_slice()),
    ] {
        assert!(rt; prefix(lower)? < prefix(higher)?, "at {lower:?}");
    }
    Ok(())
}

#[test]
fn octets_hold_the_bits_that_count(rt: HostRuntime) -> Result<(), Fail> {
    let mut out = [9; 5];
    let count = prefix(b"203.0.113.0/24")?.write_octets(&mut out);
    assert_eq!(rt; (count, out), (4, [0x18, 0xcb, 0x00, 0x71, 9]));
    let (found, count) = Prefix::read_octets(&[9, 0xff, 0xff, 7]).ok_or("too few")?;
    assert_eq!(rt; (found, count), (prefix(b"255.128.0.0/9")?, 3));
    Ok(())
}

#[test]
fn octets_that_are_no_prefix(rt: HostRuntime) {
    for bytes in [
        b"".as_slice(),
        b"\x21\x00\x00\x00\x00\x00".as_slice(),
        b"\x18\xcb\x00".as_slice(),
        b"\x01".as_slice(),
        b"\xff".as_slice(),
    ] {
        assert!(rt; Prefix::read_octets(bytes).is_none(), "at {bytes:?}");
    }
}

#[test]
fn texts_that_are_no_number(rt: HostRuntime) {
    for text in [
        b"".as_slice(),
        b"00".as_slice(),
        b"01".as_slice(),
        b"+1".as_slice(),
        b"-1".as_slice(),
        b" 1".as_slice(),
        b"1a".as_slice(),
        b"\xff".as_slice(),
        b"18446744073709551616".as_slice(),
    ] {
        assert!(rt; read_number(text).is_none(), "at {text:?}");
    }
}

#[test]
fn texts_that_are_no_address(rt: HostRuntime) {
    for text in [
        b"".as_slice(),
        b"10.0.0".as_slice(),
        b"10.0.0.1.1".as_slice(),
        b"10..0.1".as_slice(),
        b"10.0.0.".as_slice(),
        b"10.0.0.256".as_slice(),
        b"10.0.0.01".as_slice(),
        b"10.0.0.+1".as_slice(),
    ] {
        assert!(rt; read_addr(text).is_none(), "at {text:?}");
    }
}

#[test]
fn texts_that_are_no_prefix(rt: HostRuntime) {
    for text in [
        b"10.0.0.0".as_slice(),
        b"10.0.0.0/".as_slice(),
        b"10.0.0.0/33".as_slice(),
        b"10.0.0.0/256".as_slice(),
        b"10.0.0.0/8/8".as_slice(),
        b"10.0.0/8".as_slice(),
        b"/8".as_slice(),
    ] {
        assert!(rt; read_prefix(text).is_none(), "at {text:?}");
    }
}

#[test]
fn bounds_are_read(rt: HostRuntime) -> Result<(), Fail> {
    assert_eq!(rt; read_number(b"0"), Some(0));
    assert_eq!(rt;
        read_number(b"18446744073709551615"),
        Some(18446744073709551615)
    );
    assert_eq!(rt; read_addr(b"255.0.0.1"), Some(Addr(0xff00_0001)));
    let p = prefix(b"203.0.113.5/24")?;
    assert_eq!(rt; (p.addr(), p.len()), (0xcb00_7100, 24));
    assert_eq!(rt; prefix(b"10.0.0.1/32")?.addr(), 0x0a00_0001);
    Ok(())
}

#[test]
fn texts_are_written(rt: HostRuntime) -> Result<(), Fail> {
    let mut out = [b'-'; 15];
    let count = write_addr(Addr(0x0a00_6401), &mut out);
    assert_eq!(rt; (count, &out), (10, b"10.0.100.1-----"));
    let mut out = [b'-'; 18];
    let count = write_prefix(prefix(b"255.255.255.255/32")?, &mut out);
    assert_eq!(rt; (count, &out), (18, b"255.255.255.255/32"));
    Ok(())
}

#[test]
fn names_are_shown(rt: HostRuntime) -> Result<(), Fail> {
    let p = prefix(b"203.0.113.0/24")?;
    let text = format!(in rt.alloc(); "{p} {} {} {NoMemory}", Addr(1), RouterId(0x0a00_0001))?;
    assert_eq!(rt; text.as_str(), "203.0.113.0/24 0.0.0.1 10.0.0.1 no memory");
    Ok(())
}

#[test]
fn a_shard_goes_by_address_and_length(rt: HostRuntime) -> Result<(), Fail> {
    let p = prefix(b"203.0.113.0/24")?;
    assert_eq!(rt; shard_of(p, 2), 1);
    assert_eq!(rt; shard_of(p, 1), 0);
    assert_eq!(rt; shard_of(p, 64), 9);
    Ok(())
}
