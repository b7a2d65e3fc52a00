//! Records as text: a letter, a number, and the octets of the body. Records end by `;`.
//!
//! A word of the body is a number of one digit, as eight octets; a name of the lists below; or octets in hexadecimal.

use std::alloc::Global;
use std::test::Fail;

/// Three routers A, B and C in a row, each link of cost 10.
const LINKED: &str = "as 65000\nid 10.0.0.254\nshards 2\nhold 90\narea 0.0.0.0\n\
router 10.0.0.1 10.0.0.1\nrouter 10.0.0.2 10.0.0.2\nrouter 10.0.0.3 10.0.0.3\n\
link 10.0.0.1 10.0.0.2 10\nlink 10.0.0.2 10.0.0.3 10\n";

/// The same routers without links.
const BARE: &str = "as 65000\nid 10.0.0.254\nshards 2\nhold 90\narea 0.0.0.0\n\
router 10.0.0.1 10.0.0.1\nrouter 10.0.0.2 10.0.0.2\nrouter 10.0.0.3 10.0.0.3\n";

/// The three in one shard.
const ONE_SHARD: &str = "as 65000\nid 10.0.0.254\nshards 1\nhold 90\narea 0.0.0.0\n\
router 10.0.0.1 10.0.0.1\nrouter 10.0.0.2 10.0.0.2\nrouter 10.0.0.3 10.0.0.3\n\
link 10.0.0.1 10.0.0.2 10\nlink 10.0.0.2 10.0.0.3 10\n";

/// B is linked to the others, at costs 1, 30 and 5, and a fifth router to none.
const STAR: &str = "as 65000\nid 10.0.0.254\nshards 2\nhold 90\narea 0.0.0.0\n\
router 10.0.0.1 10.0.0.1\nrouter 10.0.0.2 10.0.0.2\nrouter 10.0.0.3 10.0.0.3\n\
router 10.0.0.4 10.0.0.4\nrouter 10.0.0.5 10.0.0.5\n\
link 10.0.0.1 10.0.0.2 1\nlink 10.0.0.2 10.0.0.3 30\nlink 10.0.0.2 10.0.0.4 5\n";

/// Four routers without links.
const BARE_FOUR: &str = "as 65000\nid 10.0.0.254\nshards 2\nhold 90\narea 0.0.0.0\n\
router 10.0.0.1 10.0.0.1\nrouter 10.0.0.2 10.0.0.2\nrouter 10.0.0.3 10.0.0.3\n\
router 10.0.0.4 10.0.0.4\n";

/// Rosters by name.
const ROSTERS: &[(&str, &str)] = &[
    ("LINKED", LINKED),
    ("BARE", BARE),
    ("ONE_SHARD", ONE_SHARD),
    ("STAR", STAR),
    ("BARE_FOUR", BARE_FOUR),
];

/// Octets by name, in hexadecimal.
const OCTETS: &[(&str, &str)] = &[
    // What each message begins with (RFC 4271 section 4.1), and attributes of A's routes: ORIGIN IGP, the path 65001, NEXT_HOP 10.0.0.1 and LOCAL_PREF 100.
    ("M", "ffffffffffffffffffffffffffffffff"),
    (
        "ATTRS_A",
        "40010100 4002040201fde9 4003040a000001 40050400000064",
    ),
    // Routers.
    ("A", "0a000001"),
    ("B", "0a000002"),
    ("C", "0a000003"),
    ("F", "0a000004"),
    ("G", "0a000005"),
    // UPDATEs of 203.0.113.0/24 by A, by C, by B with LOCAL_PREF 200 and by F with another neighbour; and one that withdraws it.
    (
        "UA",
        "ffffffffffffffffffffffffffffffff 0034 02 0000 0019 40010100 4002040201fde9 4003040a000001 40050400000064 18cb0071",
    ),
    (
        "UC",
        "ffffffffffffffffffffffffffffffff 0034 02 0000 0019 40010100 4002040201fde9 4003040a000003 40050400000064 18cb0071",
    ),
    (
        "UB",
        "ffffffffffffffffffffffffffffffff 0034 02 0000 0019 40010100 4002040201fde9 4003040a000002 400504000000c8 18cb0071",
    ),
    (
        "UF",
        "ffffffffffffffffffffffffffffffff 003b 02 0000 0020 40010100 4002040201fdea 4003040a000004 80040400000032 40050400000064 18cb0071",
    ),
    (
        "WITHDRAWN",
        "ffffffffffffffffffffffffffffffff 001b 02 0004 18cb0071 0000",
    ),
    // The platform's OPEN: AS 65000, hold time 90, BGP Identifier 10.0.0.254. A's with the hold time 30 and a parameter of capabilities.
    (
        "OPEN",
        "ffffffffffffffffffffffffffffffff 001d 01 04 fde8 005a 0a0000fe 00",
    ),
    (
        "OPEN_A",
        "ffffffffffffffffffffffffffffffff 0025 01 04 fde8 001e 0a000001 08 0206010400010001",
    ),
    ("KEEPALIVE", "ffffffffffffffffffffffffffffffff 0013 04"),
    // Link State Updates (RFC 2328 section A.3.5) up to their LSAs, by length and number of LSAs; and an empty packet of another type.
    (
        "PACKET_172_4",
        "020400ac 0aff0001 00000000 00000000 00000000 00000000 00000004",
    ),
    (
        "PACKET_148_3",
        "02040094 0aff0001 00000000 00000000 00000000 00000000 00000003",
    ),
    (
        "PACKET_136_3",
        "02040088 0aff0001 00000000 00000000 00000000 00000000 00000003",
    ),
    (
        "PACKET_112_2",
        "02040070 0aff0001 00000000 00000000 00000000 00000000 00000002",
    ),
    (
        "PACKET_64_1",
        "02040040 0aff0001 00000000 00000000 00000000 00000000 00000001",
    ),
    (
        "HELLO",
        "02010018 0aff0001 00000000 00000000 00000000 00000000",
    ),
    (
        "VERSION_3",
        "03040094 0aff0001 00000000 00000000 00000000 00000000",
    ),
    // The LSAs of A, B and C in a row with metrics of 10, and one of C without links. Newer ones, by which A and B are 11 apart.
    (
        "LSA_A",
        "00010201 0a000001 0a000001 80000001 ce5a 0024 00000001 0a000002 00000000 0100000a",
    ),
    (
        "LSA_B",
        "00010201 0a000002 0a000002 80000001 1ce6 0030 00000002 0a000001 00000000 0100000a 0a000003 00000000 0100000a",
    ),
    (
        "LSA_C",
        "00010201 0a000003 0a000003 80000001 ae76 0024 00000001 0a000002 00000000 0100000a",
    ),
    (
        "LSA_C_ALONE",
        "00010201 0a000003 0a000003 80000001 72d6 0018 00000000",
    ),
    (
        "LSA_A_NEWER",
        "00010201 0a000001 0a000001 80000002 de48 0024 00000001 0a000002 00000000 0100000b",
    ),
    (
        "LSA_B_NEWER",
        "00010201 0a000002 0a000002 80000002 2cd4 0030 00000002 0a000001 00000000 0100000b 0a000003 00000000 0100000a",
    ),
    // A's LSA with a metric of 0, that of B with the link to A alone, and those of C and F with a link to each other, of metrics 5 and 6.
    (
        "LSA_A_FREE",
        "00010201 0a000001 0a000001 80000001 1a19 0024 00000001 0a000002 00000000 01000000",
    ),
    (
        "LSA_B_TO_A",
        "00010201 0a000002 0a000002 80000001 b473 0024 00000001 0a000001 00000000 0100000a",
    ),
    (
        "LSA_C_5",
        "00010201 0a000003 0a000003 80000001 68bf 0024 00000001 0a000004 00000000 01000005",
    ),
    (
        "LSA_F_5",
        "00010201 0a000004 0a000004 80000001 4ed8 0024 00000001 0a000003 00000000 01000005",
    ),
    (
        "LSA_C_6",
        "00010201 0a000003 0a000003 80000001 7aac 0024 00000001 0a000004 00000000 01000006",
    ),
    (
        "LSA_F_6",
        "00010201 0a000004 0a000004 80000001 60c5 0024 00000001 0a000003 00000000 01000006",
    ),
    // A's LSA with another last octet than its checksum; of age 3590; and the newer one of age 3600, which flushes it.
    (
        "LSA_A_CHANGED",
        "00010201 0a000001 0a000001 80000001 ce5a 0024 00000001 0a000002 00000000 0100000b",
    ),
    (
        "LSA_A_OLD",
        "0e060201 0a000001 0a000001 80000001 ce5a 0024 00000001 0a000002 00000000 0100000a",
    ),
    (
        "LSA_A_FLUSH",
        "0e100201 0a000001 0a000001 80000002 de48 0024 00000001 0a000002 00000000 0100000b",
    ),
];

/// The text that stands under a name, if any.
fn named(names: &[(&'static str, &'static str)], name: &str) -> Option<&'static str> {
    for (known, text) in names {
        if *known == name {
            return Some(*text);
        }
    }
    None
}

/// The value of a hexadecimal digit.
fn digit(letter: u8) -> Option<u8> {
    match letter {
        b'0'..=b'9' => Some(letter - b'0'),
        b'a'..=b'f' => Some(letter - b'a' + 10),
        _ => None,
    }
}

/// Adds octets in hexadecimal. Spaces between digits don't count.
fn add_octets(body: &mut Vec<u8>, text: &str) -> Result<(), Fail> {
    let mut high = None;
    for letter in text.bytes() {
        if letter == b' ' {
            continue;
        }
        let low = digit(letter).ok_or("no digit")?;
        high = match high {
            None => Some(low),
            Some(first) => {
                body.push(first << 4 | low)?;
                None
            }
        };
    }
    Ok(())
}

/// Adds what a word of a body stands for.
fn add_word(body: &mut Vec<u8>, word: &str) -> Result<(), Fail> {
    if let Some(text) = named(ROSTERS, word) {
        body.extend_from_slice(text.as_bytes())?;
    } else if let Some(text) = named(OCTETS, word) {
        add_octets(body, text)?;
    } else if let [letter] = word.as_bytes() {
        let number = u64::from(digit(*letter).ok_or("no number")?);
        body.extend_from_slice(&number.to_be_bytes())?;
    } else {
        add_octets(body, word)?;
    }
    Ok(())
}

/// Adds a record.
pub fn add(feed: &mut Vec<u8>, kind: u8, source: u32, body: &[u8]) -> Result<(), Fail> {
    feed.push(kind)?;
    feed.extend_from_slice(&source.to_be_bytes())?;
    feed.extend_from_slice(&u32::try_from(body.len())?.to_be_bytes())?;
    feed.extend_from_slice(body)?;
    Ok(())
}

/// Adds the record of a text.
fn add_record(feed: &mut Vec<u8>, alloc: Global, text: &str) -> Result<(), Fail> {
    let mut words = text.split(' ').filter(|word| !word.is_empty());
    let Some(letter) = words.next() else {
        return Ok(());
    };
    let kind = *letter.as_bytes().first().ok_or("no kind")?;
    let source = words.next().ok_or("no number")?.parse::<u32>()?;
    let mut body = Vec::new(alloc);
    for word in words {
        add_word(&mut body, word)?;
    }
    add(feed, kind, source, &body)
}

/// The octets of the records of a text.
pub fn octets_of(alloc: Global, text: &str) -> Result<Vec<u8>, Fail> {
    let mut feed = Vec::new(alloc);
    for part in text.split(';') {
        add_record(&mut feed, alloc, part)?;
    }
    Ok(feed)
}
