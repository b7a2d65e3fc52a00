//! What the comments of lines say.

use crate::records::Raw;
use message_text::{BgpMessage, Message};
use std::alloc::AllocError;

/// Whether the lines that are shown have comments.
#[derive(Clone, Copy, Debug, PartialEq, Eq)]
pub enum Comments {
    /// A comment at a line's end has the name of a NOTIFICATION's code and subcode, or says that an UPDATE is End-of-RIB.
    Shown,
    /// No line has a comment.
    LeftOut,
}

/// Appends the comment on a record, where there is one.
pub fn push_comment(text: &mut Vec<u8>, raw: Raw<'_>) -> Result<(), AllocError> {
    let Some(comment) = comment_on(raw) else {
        return Ok(());
    };
    text.extend_from_slice(b" # ")?;
    text.extend_from_slice(comment)
}

fn comment_on(raw: Raw<'_>) -> Option<&'static [u8]> {
    match (raw.kind, raw.body) {
        (b'X', [_, code, subcode]) => name_of(*code, *subcode),
        (b'B', body) => {
            let (message, _) = BgpMessage::split(body)?;
            comment_on_message(message.kind, message.body)
        }
        _ => None,
    }
}

/// The comment on a BGP message. An UPDATE with nothing in it is End-of-RIB (RFC 4724 section 2).
fn comment_on_message(kind: u8, body: &[u8]) -> Option<&'static [u8]> {
    match (kind, body) {
        (2, [0, 0, 0, 0]) => Some(b"End-of-RIB"),
        (3, [code, subcode, ..]) => name_of(*code, *subcode),
        _ => None,
    }
}

/// The name of a NOTIFICATION's code and subcode (RFC 4271 section 4.5).
fn name_of(code: u8, subcode: u8) -> Option<&'static [u8]> {
    match (code, subcode) {
        (1, 1) => Some(b"Connection Not Synchronized"),
        (1, 2) => Some(b"Bad Message Length"),
        (1, 3) => Some(b"Bad Message Type"),
        (2, _) => open_error(subcode),
        (3, _) => update_error(subcode),
        (4, _) => Some(b"Hold Timer Expired"),
        (5, _) => Some(b"Finite State Machine Error"),
        (6, _) => cease(subcode),
        _ => None,
    }
}

/// OPEN Message Error (RFC 4271 section 6.2, RFC 5492 section 5).
fn open_error(subcode: u8) -> Option<&'static [u8]> {
    match subcode {
        1 => Some(b"Unsupported Version Number"),
        2 => Some(b"Bad Peer AS"),
        3 => Some(b"Bad BGP Identifier"),
        4 => Some(b"Unsupported Optional Parameter"),
        6 => Some(b"Unacceptable Hold Time"),
        7 => Some(b"Unsupported Capability"),
        _ => None,
    }
}

/// UPDATE Message Error (RFC 4271 section 6.3).
fn update_error(subcode: u8) -> Option<&'static [u8]> {
    match subcode {
        1 => Some(b"Malformed Attribute List"),
        2 => Some(b"Unrecognized Well-known Attribute"),
        3 => Some(b"Missing Well-known Attribute"),
        4 => Some(b"Attribute Flags Error"),
        5 => Some(b"Attribute Length Error"),
        6 => Some(b"Invalid ORIGIN Attribute"),
        8 => Some(b"Invalid NEXT_HOP Attribute"),
        9 => Some(b"Optional Attribute Error"),
        10 => Some(b"Invalid Network Field"),
        11 => Some(b"Malformed AS_PATH"),
        _ => None,
    }
}

/// Cease (RFC 4486 section 4).
fn cease(subcode: u8) -> Option<&'static [u8]> {
    match subcode {
        1 => Some(b"Maximum Number of Prefixes Reached"),
        2 => Some(b"Administrative Shutdown"),
        3 => Some(b"Peer De-configured"),
        4 => Some(b"Administrative Reset"),
        5 => Some(b"Connection Rejected"),
        6 => Some(b"Other Configuration Change"),
        7 => Some(b"Connection Collision Resolution"),
        8 => Some(b"Out of Resources"),
        _ => None,
    }
}
