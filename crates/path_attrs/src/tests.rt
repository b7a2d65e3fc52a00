// Lists of attributes that are read and written, their faults, and the routes that they make. Octets stand in
// hexadecimal digits.
use super::*;
use bgp_fault::{Data, Fault};
use rcp_base::Addr;
use rcp_model::Route;
use std::alloc::Global;
use std::test::Fail;

mod text;

// ORIGIN IGP, the path 65001, NEXT_HOP 10.0.0.1 and LOCAL_PREF 100: 25 octets.
const LIST: &str = "40010100 4002040201fde9 4003040a000001 40050400000064";

// Lists, and what is written of each.
const WRITTEN: [(&str, &str); 16] = [
    (LIST, LIST),
    // the first and the last address of NEXT_HOP
    ("40030401000000", "40030401000000 40050400000064"),
    ("400304dfffffff", "400304dfffffff 40050400000064"),
    // MULTI_EXIT_DISC stands before LOCAL_PREF
    (
        "40010100 4002040201fdea 4003040a000004 80040400000032 40050400000064",
        "40010100 4002040201fdea 4003040a000004 80040400000032 40050400000064",
    ),
    // another order, and no LOCAL_PREF
    ("4003040a000001 40010100 4002040201fde9", LIST),
    ("", "40050400000064"),
    // the low four flags, partial on a well-known attribute, and a long form of a short length
    ("4f010102", "40010102 40050400000064"),
    ("60010100 400504000000c8", "40010100 400504000000c8"),
    ("50010001 01", "40010101 40050400000064"),
    // a path of two segments, and an empty one
    (
        "40020a0202fde9fdea0101fdeb",
        "40020a0202fde9fdea0101fdeb 40050400000064",
    ),
    ("400200", "400200 40050400000064"),
    // optional attributes keep partial as it was read
    (
        "c00706fde90a000001 e0080800000001ffffff01",
        "40050400000064 c00706fde90a000001 e0080800000001ffffff01",
    ),
    (
        "e00706fde90a000001 c00800 400600",
        "40050400000064 400600 e00706fde90a000001 c00800",
    ),
    // a type that isn't recognised becomes partial where it is transitive, and is left out where it isn't
    ("c06302abcd", "40050400000064 e06302abcd"),
    (
        "d0630002abcd e06400 806502abcd",
        "40050400000064 e06302abcd e06400",
    ),
    ("c00900 c0ff00 a01000", "40050400000064 e00900 e0ff00"),
];

#[test]
fn a_list_is_written_in_its_one_form(rt: HostRuntime) -> Result<(), Fail> {
    let alloc = rt.alloc();
    for (list, form) in WRITTEN {
        let attrs = attrs(alloc, list, false)??;
        let form = octets(alloc, form)?;
        assert_eq!(rt;
            written(alloc, &attrs)?.as_slice(),
            form.as_slice(),
            "{list}"
        );
    }
    Ok(())
}

// Lists, whether the UPDATE has NLRI, and of the first fault its code, its subcode and its data.
const FAULTS: [(&str, bool, (u8, u8), &str); 72] = [
    // an attribute runs past the end: in its header, in its value, after another
    ("40", false, (3, 1), ""),
    ("4001", false, (3, 1), ""),
    ("400101", false, (3, 1), ""),
    ("500100", false, (3, 1), ""),
    ("50010001", false, (3, 1), ""),
    ("40010100 4002040201fd", false, (3, 1), ""),
    // a type stands twice, be it recognised, sent on or left out
    ("40010100 4002040201fde9 40010100", false, (3, 1), ""),
    ("c06300 c06300", false, (3, 1), ""),
    ("806300 806300", false, (3, 1), ""),
    // not recognised, and not optional
    ("406300", false, (3, 2), "406300"),
    ("40010100 5063000101", false, (3, 2), "5063000101"),
    ("00000101", false, (3, 2), "00000101"),
    // NLRI without ORIGIN, AS_PATH or NEXT_HOP
    ("", true, (3, 3), "01"),
    ("4002040201fde9 4003040a000001", true, (3, 3), "01"),
    ("40010100 4003040a000001", true, (3, 3), "02"),
    ("40010100 4002040201fde9", true, (3, 3), "03"),
    // other flags
    ("c0010100", false, (3, 4), "c0010100"),
    ("8002040201fde9", false, (3, 4), "8002040201fde9"),
    ("0003040a000001", false, (3, 4), "0003040a000001"),
    ("c0040400000032", false, (3, 4), "c0040400000032"),
    ("80050400000064", false, (3, 4), "80050400000064"),
    ("c00600", false, (3, 4), "c00600"),
    ("400706fde90a000001", false, (3, 4), "400706fde90a000001"),
    ("80080400000001", false, (3, 4), "80080400000001"),
    (
        "40010100 d00400 0400000032",
        false,
        (3, 4),
        "d004000400000032",
    ),
    // another length
    ("400100", false, (3, 5), "400100"),
    ("4001020000", false, (3, 5), "4001020000"),
    ("4003030a0000", false, (3, 5), "4003030a0000"),
    ("4003050a00000100", false, (3, 5), "4003050a00000100"),
    ("800400", false, (3, 5), "800400"),
    ("4005020064", false, (3, 5), "4005020064"),
    ("40060100", false, (3, 5), "40060100"),
    ("c00705fde90a0000", false, (3, 5), "c00705fde90a0000"),
    // another ORIGIN
    ("40010103", false, (3, 6), "40010103"),
    ("500100 01ff", false, (3, 6), "50010001ff"),
    // another NEXT_HOP: 0.0.0.1, 224.0.0.1, 255.255.255.255
    ("40030400000001", false, (3, 8), "40030400000001"),
    ("400304e0000001", false, (3, 8), "400304e0000001"),
    ("400304ffffffff", false, (3, 8), "400304ffffffff"),
    // COMMUNITIES that aren't whole
    ("c00803000000", false, (3, 9), "c00803000000"),
    ("e008050000000000", false, (3, 9), "e008050000000000"),
    // a path that ends within a segment, has an empty one, or one of another kind
    ("40020102", false, (3, 11), ""),
    ("4002030201fd", false, (3, 11), ""),
    ("4002050202fde9fd", false, (3, 11), ""),
    ("4002020200", false, (3, 11), ""),
    ("4002060201fde90200", false, (3, 11), ""),
    ("4002040301fde9", false, (3, 11), ""),
    ("4002040001fde9", false, (3, 11), ""),
    // of two faults, whole before all: before the flags, the length, the value, and what isn't recognised
    ("c0010203", false, (3, 1), ""),
    ("40010203", false, (3, 1), ""),
    ("400304e00000", false, (3, 1), ""),
    ("406301", false, (3, 1), ""),
    // a type that stands twice before its flags, its length, its value, and what isn't recognised
    ("40010100 c0010100", false, (3, 1), ""),
    ("40010100 400100", false, (3, 1), ""),
    ("40010100 40010103", false, (3, 1), ""),
    ("c06300 406300", false, (3, 1), ""),
    // flags before length, length before value, flags before value
    ("c001020303", false, (3, 4), "c001020303"),
    ("4001020303", false, (3, 5), "4001020303"),
    ("400303e00000", false, (3, 5), "400303e00000"),
    ("c0010103", false, (3, 4), "c0010103"),
    ("c00304e0000001", false, (3, 4), "c00304e0000001"),
    ("c0020403 01fde9", false, (3, 4), "c002040301fde9"),
    ("800803000000", false, (3, 4), "800803000000"),
    // an attribute before the next
    ("40010103 406300 40", false, (3, 6), "40010103"),
    ("406300 40010103", false, (3, 2), "406300"),
    ("4002020200 c0010100", false, (3, 11), ""),
    // what is there before what is missing, and of what is missing the lowest type
    ("4002040201fde9 40", true, (3, 1), ""),
    ("406300", true, (3, 2), "406300"),
    ("40010103", true, (3, 6), "40010103"),
    ("c00803000000", true, (3, 9), "c00803000000"),
    ("4003040a000001", true, (3, 3), "01"),
    ("40010100", true, (3, 3), "02"),
    ("c06300 40010100", true, (3, 3), "02"),
];

#[test]
fn the_first_fault_is_told(rt: HostRuntime) -> Result<(), Fail> {
    let alloc = rt.alloc();
    for (list, nlri, number, data) in FAULTS {
        let told = first_fault(alloc, list, nlri)?;
        assert_eq!(rt; (told.code, told.sub), number, "{list}");
        let data = octets(alloc, data)?;
        assert_eq!(rt; told.data.as_slice(), data.as_slice(), "{list}");
    }
    Ok(())
}

#[test]
fn a_length_above_255_has_two_octets(rt: HostRuntime) -> Result<(), Fail> {
    let alloc = rt.alloc();
    for (head, len, form) in [
        ("c06300", 0, "40050400000064e06300"),
        ("d0630000", 0, "40050400000064e06300"),
        ("c063ff", 255, "40050400000064e063ff"),
        ("d06300ff", 255, "40050400000064e063ff"),
        ("d0630100", 256, "40050400000064f0630100"),
    ] {
        let list = with_zeros(alloc, head, len)?;
        let form = with_zeros(alloc, form, len)?;
        let attrs = read_all(alloc, &list)?;
        assert_eq!(rt;
            written(alloc, &attrs)?.as_slice(),
            form.as_slice(),
            "{head}"
        );
    }
    Ok(())
}

#[test]
fn another_length_is_told_with_the_whole_attribute(rt: HostRuntime) -> Result<(), Fail> {
    let alloc = rt.alloc();
    for (head, len, whole) in [
        ("400300", 256, 3),
        ("50030000", 0, 4),
        ("4003ff", 255, 258),
        ("500300ff", 255, 259),
        ("50030100", 256, 260),
    ] {
        let list = with_zeros(alloc, head, len)?;
        let told = fault_of(alloc, &list, false)?;
        assert_eq!(rt; (told.code, told.sub), (3, 5), "{head}");
        assert_eq!(rt; told.data.len(), whole, "{head}");
        assert!(rt; list.starts_with(&told.data), "{head}");
    }
    Ok(())
}

#[test]
fn the_longest_values_are_read(rt: HostRuntime) -> Result<(), Fail> {
    let alloc = rt.alloc();
    let mut path = octets(alloc, "50020fe4")?;
    for _ in 0..7 {
        path.extend_from_slice(&with_zeros(alloc, "02ff", 510)?)?;
    }
    path.extend_from_slice(&with_zeros(alloc, "02f1", 482)?)?;
    let communities = with_zeros(alloc, "d0080fe4", 4068)?;
    for list in [&path, &communities] {
        let form = written(alloc, &read_all(alloc, list)?)?;
        // LOCAL_PREF stands with it
        assert_eq!(rt; (list.len(), form.len()), (4072, 4079));
    }
    Ok(())
}

// Of an attribute after LIST, or after LIST without LOCAL_PREF, its header, and how many zeros make its value: the
// octets that are written of both, and whether the route is long.
const LONG: [(&str, &str, usize, usize, bool); 5] = [
    (LIST, "d0630fc7", 4039, 4068, false),
    (LIST, "d0630fc8", 4040, 4069, true),
    // the written octets count, LOCAL_PREF among them
    (
        "40010100 4002040201fde9 4003040a000001",
        "d0630fc7",
        4039,
        4068,
        false,
    ),
    (
        "40010100 4002040201fde9 4003040a000001",
        "d0630fc8",
        4040,
        4069,
        true,
    ),
    // the most octets that an UPDATE has room for
    (LIST, "d0630fcc", 4044, 4073, true),
];

#[test]
fn more_than_4068_octets_are_long(rt: HostRuntime) -> Result<(), Fail> {
    let alloc = rt.alloc();
    for (front, head, len, written, long) in LONG {
        let mut list = octets(alloc, front)?;
        list.extend_from_slice(&with_zeros(alloc, head, len)?)?;
        let route = route_in_65000(alloc, &list)?;
        assert_eq!(rt; route.octets().len(), written);
        assert_eq!(rt; route.long, long);
    }
    Ok(())
}

// Lists, and of their routes in AS 65000: pref, hops, origin, neighbour, med, looped and next hop.
const ROUTES: [(&str, (u32, u32, u8, u32, u32, bool, u32)); 5] = [
    (LIST, (100, 1, 0, 65001, 0, false, 0x0a000001)),
    // no LOCAL_PREF, a path of a sequence of two numbers and a set of two
    (
        "40010102 40020c0202fdf2fdea0102fde9fdeb 400304c6336401 80040400000032",
        (100, 3, 2, 65010, 50, false, 0xc6336401),
    ),
    // a path that begins with a set
    (
        "40010101 40020a0102fdeafdeb0201fdec 4003040a000001 4005040000012c",
        (300, 2, 1, 65000, 0, false, 0x0a000001),
    ),
    // the local AS in a set after a sequence
    (
        "40010100 40020a0201fde90102fdeafde8 4003040a000001",
        (100, 2, 0, 65001, 0, true, 0x0a000001),
    ),
    // an empty path
    (
        "40010100 400200 4003040a000001",
        (100, 0, 0, 65000, 0, false, 0x0a000001),
    ),
];

#[test]
fn a_route_has_what_its_attributes_say(rt: HostRuntime) -> Result<(), Fail> {
    let alloc = rt.alloc();
    for (list, (pref, hops, origin, neighbour, med, looped, next_hop)) in ROUTES {
        let route = route_in_65000(alloc, &octets(alloc, list)?)?;
        assert_eq!(rt;
            (route.pref, route.hops, route.origin),
            (pref, hops, origin),
            "{list}"
        );
        assert_eq!(rt;
            (route.neighbour, route.med, route.looped),
            (neighbour, med, looped),
            "{list}"
        );
        assert_eq!(rt;
            (route.next_hop, route.long),
            (Addr(next_hop), false),
            "{list}"
        );
    }
    Ok(())
}

#[test]
fn a_route_needs_three_attributes(rt: HostRuntime) -> Result<(), Fail> {
    let alloc = rt.alloc();
    for (list, complete) in [
        (LIST, true),
        ("4002040201fde9 4003040a000001", false),
        ("40010100 4003040a000001", false),
        ("40010100 4002040201fde9", false),
    ] {
        assert_eq!(rt; has_route(&attrs(alloc, list, false)??), complete, "{list}");
    }
    Ok(())
}

#[test]
fn a_refusal_is_shown_by_name(rt: HostRuntime) -> Result<(), Fail> {
    let alloc = rt.alloc();
    let Err(refusal) = attrs(alloc, "40010103", false)? else {
        return Err("not refused".into());
    };
    let text = format!(in alloc; "{refusal}, {}", AttrRefusal::NoMemory)?;
    let name = "UPDATE Message Error: Invalid ORIGIN Attribute, no memory";
    assert_eq!(rt; text.as_bytes(), name.as_bytes());
    Ok(())
}

fn digit(byte: u8) -> Option<u8> {
    match byte {
        b'0'..=b'9' => Some(byte - b'0'),
        b'a'..=b'f' => Some(byte - b'a' + 10),
        _ => None,
    }
}

// The octets of a text of digits, whose spaces count for nothing.
fn octets(alloc: Global, text: &str) -> Result<Vec<u8>, Fail> {
    let mut octets = Vec::new(alloc);
    let mut high = None;
    for byte in text.bytes() {
        let Some(low) = digit(byte) else {
            continue;
        };
        high = match high {
            None => Some(low),
            Some(high) => {
                octets.push(high << 4 | low)?;
                None
            }
        };
    }
    Ok(octets)
}

// The octets of a text of digits, and so many zeros after them.
fn with_zeros(alloc: Global, head: &str, len: usize) -> Result<Vec<u8>, Fail> {
    let mut list = octets(alloc, head)?;
    for _ in 0..len {
        list.push(0)?;
    }
    Ok(list)
}

// What reading a list gives.
fn answer(alloc: Global, list: &[u8], nlri: bool) -> Result<Result<Attrs, AttrRefusal>, Fail> {
    if list.len() > 4073 {
        return Err("too many octets".into());
    }
    Ok(read(alloc, list, nlri))
}

// The attributes of a list.
fn read_all(alloc: Global, list: &[u8]) -> Result<Attrs, Fail> {
    Ok(answer(alloc, list, false)??)
}

// The route of a list in AS 65000.
fn route_in_65000(alloc: Global, list: &[u8]) -> Result<Route, Fail> {
    let attrs = answer(alloc, list, true)??;
    if !has_route(&attrs) {
        return Err("no route".into());
    }
    Ok(route(alloc, &attrs, 65000)?)
}

fn attrs(alloc: Global, text: &str, nlri: bool) -> Result<Result<Attrs, AttrRefusal>, Fail> {
    let list = octets(alloc, text)?;
    answer(alloc, &list, nlri)
}

// What is written of attributes.
fn written(alloc: Global, attrs: &Attrs) -> Result<Vec<u8>, Fail> {
    let mut out = [0xaa; 8192];
    let len = write(attrs, &mut out);
    Ok(Vec::from_slice(alloc, &out[..len])?)
}

// A fault with the octets of its data.
#[derive(Drop)]
struct Told {
    code: u8,
    sub: u8,
    data: Vec<u8>,
}

fn first_fault(alloc: Global, text: &str, nlri: bool) -> Result<Told, Fail> {
    let list = octets(alloc, text)?;
    fault_of(alloc, &list, nlri)
}

fn fault_of(alloc: Global, list: &[u8], nlri: bool) -> Result<Told, Fail> {
    match answer(alloc, list, nlri)? {
        Err(AttrRefusal::Fault(fault)) => Ok(Told {
            code: fault.code,
            sub: fault.sub,
            data: data(alloc, list, fault)?,
        }),
        _ => Err("no fault".into()),
    }
}

// The octets of a fault's data, of which a span stands in the list.
fn data(alloc: Global, list: &[u8], fault: Fault) -> Result<Vec<u8>, Fail> {
    match fault.extra {
        Data::None => Ok(Vec::new(alloc)),
        Data::Octet(octet) => Ok(Vec::from_slice(alloc, &[octet])?),
        Data::Pair(_) => Err("no pair is told".into()),
        Data::Span { start, len } => {
            let start = usize::from(start);
            let span = list
                .get(start..start + usize::from(len))
                .ok_or("a span past the end")?;
            Ok(Vec::from_slice(alloc, span)?)
        }
    }
}
