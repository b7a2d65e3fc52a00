//! Rosters, and the octets of messages and LSAs, written by hand.

/// A message of BGP in pieces: its marker (RFC 4271 section 4.1), and what follows.
pub type Message<'a> = &'a [&'a [u8]];

const MARKER: &[u8] = &[0xff; 16];

/// Three routers A, B and C in a row, each link of cost 10.
pub const LINKED: &[u8] = b"as 65000\nid 10.0.0.254\nshards 2\nhold 90\narea 0.0.0.0\n\
router 10.0.0.1 10.0.0.1\nrouter 10.0.0.2 10.0.0.2\nrouter 10.0.0.3 10.0.0.3\n\
link 10.0.0.1 10.0.0.2 10\nlink 10.0.0.2 10.0.0.3 10\n";

/// The same routers without links.
pub const BARE: &[u8] = b"as 65000\nid 10.0.0.254\nshards 2\nhold 90\narea 0.0.0.0\n\
router 10.0.0.1 10.0.0.1\nrouter 10.0.0.2 10.0.0.2\nrouter 10.0.0.3 10.0.0.3\n";

/// The three in one shard.
pub const ONE_SHARD: &[u8] = b"as 65000\nid 10.0.0.254\nshards 1\nhold 90\narea 0.0.0.0\n\
router 10.0.0.1 10.0.0.1\nrouter 10.0.0.2 10.0.0.2\nrouter 10.0.0.3 10.0.0.3\n\
link 10.0.0.1 10.0.0.2 10\nlink 10.0.0.2 10.0.0.3 10\n";

/// B is linked to the others at costs 1, 30 and 5, and a fifth router G to none.
pub const STAR: &[u8] = b"as 65000\nid 10.0.0.254\nshards 2\nhold 90\narea 0.0.0.0\n\
router 10.0.0.1 10.0.0.1\nrouter 10.0.0.2 10.0.0.2\nrouter 10.0.0.3 10.0.0.3\n\
router 10.0.0.4 10.0.0.4\nrouter 10.0.0.5 10.0.0.5\n\
link 10.0.0.1 10.0.0.2 1\nlink 10.0.0.2 10.0.0.3 30\nlink 10.0.0.2 10.0.0.4 5\n";

pub const A: &[u8] = &[10, 0, 0, 1];

pub const B: &[u8] = &[10, 0, 0, 2];

pub const C: &[u8] = &[10, 0, 0, 3];

pub const F: &[u8] = &[10, 0, 0, 4];

pub const G: &[u8] = &[10, 0, 0, 5];

/// UPDATEs of 203.0.113.0/24 by A and by C: the path 65001, LOCAL_PREF 100.
pub const UPDATE_A: Message = &[
    MARKER,
    &[
        0, 0x34, 2, 0, 0, 0, 0x19, 0x40, 1, 1, 0, 0x40, 2, 4, 2, 1, 0xfd, 0xe9, 0x40, 3, 4, 0x0a,
        0, 0, 1, 0x40, 5, 4, 0, 0, 0, 0x64, 0x18, 0xcb, 0, 0x71,
    ],
];

pub const UPDATE_C: Message = &[
    MARKER,
    &[
        0, 0x34, 2, 0, 0, 0, 0x19, 0x40, 1, 1, 0, 0x40, 2, 4, 2, 1, 0xfd, 0xe9, 0x40, 3, 4, 0x0a,
        0, 0, 3, 0x40, 5, 4, 0, 0, 0, 0x64, 0x18, 0xcb, 0, 0x71,
    ],
];

/// The same prefix with MULTI_EXIT_DISC 20 by A, 10 by C and 50 by F, whose path is 65002; and with LOCAL_PREF 500 by G.
pub const MED_20_A: Message = &[
    MARKER,
    &[
        0, 0x3b, 2, 0, 0, 0, 0x20, 0x40, 1, 1, 0, 0x40, 2, 4, 2, 1, 0xfd, 0xe9, 0x40, 3, 4, 0x0a,
        0, 0, 1, 0x80, 4, 4, 0, 0, 0, 0x14, 0x40, 5, 4, 0, 0, 0, 0x64, 0x18, 0xcb, 0, 0x71,
    ],
];

pub const MED_10_C: Message = &[
    MARKER,
    &[
        0, 0x3b, 2, 0, 0, 0, 0x20, 0x40, 1, 1, 0, 0x40, 2, 4, 2, 1, 0xfd, 0xe9, 0x40, 3, 4, 0x0a,
        0, 0, 3, 0x80, 4, 4, 0, 0, 0, 0x0a, 0x40, 5, 4, 0, 0, 0, 0x64, 0x18, 0xcb, 0, 0x71,
    ],
];

pub const MED_50_F: Message = &[
    MARKER,
    &[
        0, 0x3b, 2, 0, 0, 0, 0x20, 0x40, 1, 1, 0, 0x40, 2, 4, 2, 1, 0xfd, 0xea, 0x40, 3, 4, 0x0a,
        0, 0, 4, 0x80, 4, 4, 0, 0, 0, 0x32, 0x40, 5, 4, 0, 0, 0, 0x64, 0x18, 0xcb, 0, 0x71,
    ],
];

pub const PREFERRED_G: Message = &[
    MARKER,
    &[
        0, 0x34, 2, 0, 0, 0, 0x19, 0x40, 1, 1, 0, 0x40, 2, 4, 2, 1, 0xfd, 0xe9, 0x40, 3, 4, 0x0a,
        0, 0, 5, 0x40, 5, 4, 0, 0, 1, 0xf4, 0x18, 0xcb, 0, 0x71,
    ],
];

/// 198.51.100.0/24 and 203.0.113.0/24 by A, and both withdrawn.
pub const BOTH_A: Message = &[
    MARKER,
    &[
        0, 0x38, 2, 0, 0, 0, 0x19, 0x40, 1, 1, 0, 0x40, 2, 4, 2, 1, 0xfd, 0xe9, 0x40, 3, 4, 0x0a,
        0, 0, 1, 0x40, 5, 4, 0, 0, 0, 0x64, 0x18, 0xc6, 0x33, 0x64, 0x18, 0xcb, 0, 0x71,
    ],
];

pub const BOTH_WITHDRAWN: Message = &[
    MARKER,
    &[
        0, 0x1f, 2, 0, 8, 0x18, 0xc6, 0x33, 0x64, 0x18, 0xcb, 0, 0x71, 0, 0,
    ],
];

/// 0.0.0.0/0 and 255.255.255.255/32 by A, and each alone.
pub const LEAST_AND_GREATEST_A: Message = &[
    MARKER,
    &[
        0, 0x36, 2, 0, 0, 0, 0x19, 0x40, 1, 1, 0, 0x40, 2, 4, 2, 1, 0xfd, 0xe9, 0x40, 3, 4, 0x0a,
        0, 0, 1, 0x40, 5, 4, 0, 0, 0, 0x64, 0, 0x20, 0xff, 0xff, 0xff, 0xff,
    ],
];

pub const LEAST_A: Message = &[
    MARKER,
    &[
        0, 0x31, 2, 0, 0, 0, 0x19, 0x40, 1, 1, 0, 0x40, 2, 4, 2, 1, 0xfd, 0xe9, 0x40, 3, 4, 0x0a,
        0, 0, 1, 0x40, 5, 4, 0, 0, 0, 0x64, 0,
    ],
];

pub const GREATEST_A: Message = &[
    MARKER,
    &[
        0, 0x35, 2, 0, 0, 0, 0x19, 0x40, 1, 1, 0, 0x40, 2, 4, 2, 1, 0xfd, 0xe9, 0x40, 3, 4, 0x0a,
        0, 0, 1, 0x40, 5, 4, 0, 0, 0, 0x64, 0x20, 0xff, 0xff, 0xff, 0xff,
    ],
];

/// The first 30 octets of an UPDATE.
pub const CUT_UPDATE: Message = &[
    MARKER,
    &[0, 0x34, 2, 0, 0, 0, 0x19, 0x40, 1, 1, 0, 0x40, 2, 4],
];

/// The platform's OPEN; A's with the hold time 30 and a parameter of capabilities; a KEEPALIVE.
pub const OPEN: Message = &[
    MARKER,
    &[0, 0x1d, 1, 4, 0xfd, 0xe8, 0, 0x5a, 0x0a, 0, 0, 0xfe, 0],
];

pub const OPEN_A: Message = &[
    MARKER,
    &[
        0, 0x25, 1, 4, 0xfd, 0xe8, 0, 0x1e, 0x0a, 0, 0, 1, 8, 2, 6, 1, 4, 0, 1, 0, 1,
    ],
];

pub const KEEPALIVE: Message = &[MARKER, &[0, 0x13, 4]];

/// NOTIFICATIONs: Cease, and Hold Timer Expired.
pub const CEASE: Message = &[MARKER, &[0, 0x15, 3, 6, 0]];

pub const EXPIRED: Message = &[MARKER, &[0, 0x15, 3, 4, 0]];

/// An empty packet (RFC 2328 section A.3.2), and the header of one of another version.
pub const HELLO: &[u8] = &[
    2, 1, 0, 0x18, 0x0a, 0xff, 0, 1, 0, 0, 0, 0, 0, 0, 0, 0, 0, 0, 0, 0, 0, 0, 0, 0,
];

pub const VERSION_3: &[u8] = &[
    3, 4, 0, 0x94, 0x0a, 0xff, 0, 1, 0, 0, 0, 0, 0, 0, 0, 0, 0, 0, 0, 0, 0, 0, 0, 0,
];

/// Link State Updates (RFC 2328 section A.3.5) up to their LSAs, by length and number of LSAs.
pub const PACKET_148_3: &[u8] = &[
    2, 4, 0, 0x94, 0x0a, 0xff, 0, 1, 0, 0, 0, 0, 0, 0, 0, 0, 0, 0, 0, 0, 0, 0, 0, 0, 0, 0, 0, 3,
];

pub const PACKET_136_3: &[u8] = &[
    2, 4, 0, 0x88, 0x0a, 0xff, 0, 1, 0, 0, 0, 0, 0, 0, 0, 0, 0, 0, 0, 0, 0, 0, 0, 0, 0, 0, 0, 3,
];

pub const PACKET_112_2: &[u8] = &[
    2, 4, 0, 0x70, 0x0a, 0xff, 0, 1, 0, 0, 0, 0, 0, 0, 0, 0, 0, 0, 0, 0, 0, 0, 0, 0, 0, 0, 0, 2,
];

/// The LSAs of A, B and C in a row with metrics of 10, and one of C without links. Newer ones, by which A and B are 11 apart.
pub const LSA_A: &[u8] = &[
    0, 1, 2, 1, 0x0a, 0, 0, 1, 0x0a, 0, 0, 1, 0x80, 0, 0, 1, 0xce, 0x5a, 0, 0x24, 0, 0, 0, 1, 0x0a,
    0, 0, 2, 0, 0, 0, 0, 1, 0, 0, 0x0a,
];

pub const LSA_B: &[u8] = &[
    0, 1, 2, 1, 0x0a, 0, 0, 2, 0x0a, 0, 0, 2, 0x80, 0, 0, 1, 0x1c, 0xe6, 0, 0x30, 0, 0, 0, 2, 0x0a,
    0, 0, 1, 0, 0, 0, 0, 1, 0, 0, 0x0a, 0x0a, 0, 0, 3, 0, 0, 0, 0, 1, 0, 0, 0x0a,
];

pub const LSA_C: &[u8] = &[
    0, 1, 2, 1, 0x0a, 0, 0, 3, 0x0a, 0, 0, 3, 0x80, 0, 0, 1, 0xae, 0x76, 0, 0x24, 0, 0, 0, 1, 0x0a,
    0, 0, 2, 0, 0, 0, 0, 1, 0, 0, 0x0a,
];

pub const LSA_C_ALONE: &[u8] = &[
    0, 1, 2, 1, 0x0a, 0, 0, 3, 0x0a, 0, 0, 3, 0x80, 0, 0, 1, 0x72, 0xd6, 0, 0x18, 0, 0, 0, 0,
];

pub const LSA_A_NEWER: &[u8] = &[
    0, 1, 2, 1, 0x0a, 0, 0, 1, 0x0a, 0, 0, 1, 0x80, 0, 0, 2, 0xde, 0x48, 0, 0x24, 0, 0, 0, 1, 0x0a,
    0, 0, 2, 0, 0, 0, 0, 1, 0, 0, 0x0b,
];

pub const LSA_B_NEWER: &[u8] = &[
    0, 1, 2, 1, 0x0a, 0, 0, 2, 0x0a, 0, 0, 2, 0x80, 0, 0, 2, 0x2c, 0xd4, 0, 0x30, 0, 0, 0, 2, 0x0a,
    0, 0, 1, 0, 0, 0, 0, 1, 0, 0, 0x0b, 0x0a, 0, 0, 3, 0, 0, 0, 0, 1, 0, 0, 0x0a,
];

/// Numbers in eight octets.
pub const ZERO: &[u8] = &[0, 0, 0, 0, 0, 0, 0, 0];

pub const ONE: &[u8] = &[0, 0, 0, 0, 0, 0, 0, 1];

pub const TWO: &[u8] = &[0, 0, 0, 0, 0, 0, 0, 2];

pub const THREE: &[u8] = &[0, 0, 0, 0, 0, 0, 0, 3];

pub const FOUR: &[u8] = &[0, 0, 0, 0, 0, 0, 0, 4];

pub const FIVE: &[u8] = &[0, 0, 0, 0, 0, 0, 0, 5];
