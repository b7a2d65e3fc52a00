use super::*;
use std::test::Fail;

/// Each fault's code and subcode, and its name (RFC 4271, section 4.5).
const NAMES: [(u8, u8, &str); 22] = [
    (1, 1, "Message Header Error: Connection Not Synchronized"),
    (1, 2, "Message Header Error: Bad Message Length"),
    (1, 3, "Message Header Error: Bad Message Type"),
    (2, 0, "OPEN Message Error: Unspecific"),
    (2, 1, "OPEN Message Error: Unsupported Version Number"),
    (2, 2, "OPEN Message Error: Bad Peer AS"),
    (2, 3, "OPEN Message Error: Bad BGP Identifier"),
    (2, 4, "OPEN Message Error: Unsupported Optional Parameter"),
    (2, 6, "OPEN Message Error: Unacceptable Hold Time"),
    (3, 1, "UPDATE Message Error: Malformed Attribute List"),
    (
        3,
        2,
        "UPDATE Message Error: Unrecognized Well-known Attribute",
    ),
    (3, 3, "UPDATE Message Error: Missing Well-known Attribute"),
    (3, 4, "UPDATE Message Error: Attribute Flags Error"),
    (3, 5, "UPDATE Message Error: Attribute Length Error"),
    (3, 6, "UPDATE Message Error: Invalid ORIGIN Attribute"),
    (3, 8, "UPDATE Message Error: Invalid NEXT_HOP Attribute"),
    (3, 9, "UPDATE Message Error: Optional Attribute Error"),
    (3, 10, "UPDATE Message Error: Invalid Network Field"),
    (3, 11, "UPDATE Message Error: Malformed AS_PATH"),
    (4, 0, "Hold Timer Expired"),
    (5, 0, "Finite State Machine Error"),
    (6, 0, "Cease"),
];

#[test]
fn each_fault_is_known_and_has_its_name(rt: HostRuntime) -> Result<(), Fail> {
    for (code, sub, name) in NAMES {
        assert!(rt; known(code, sub), "{name}");
        let fault = Fault {
            code,
            sub,
            extra: Data::None,
        };
        let text = format!(in rt.alloc(); "{fault}")?;
        assert_eq!(rt; text.as_bytes(), name.as_bytes());
    }
    Ok(())
}

#[test]
fn no_other_code_or_subcode_is_known(rt: HostRuntime) {
    let mut count = 0u32;
    for code in 0..=255u8 {
        for sub in 0..=255u8 {
            if known(code, sub) {
                count = count.saturating_add(1);
            }
        }
    }
    assert_eq!(rt; count, 22);
}

#[test]
fn an_unknown_code_or_subcode_is_shown_as_its_number(rt: HostRuntime) -> Result<(), Fail> {
    for (code, sub, name) in [
        (9, 7, "Error 9: Subcode 7"),
        (3, 7, "UPDATE Message Error: Subcode 7"),
        (6, 2, "Cease: Subcode 2"),
    ] {
        let fault = Fault {
            code,
            sub,
            extra: Data::None,
        };
        let text = format!(in rt.alloc(); "{fault}")?;
        assert_eq!(rt; text.as_bytes(), name.as_bytes());
    }
    Ok(())
}
