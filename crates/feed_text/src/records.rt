//! Records with names. What is written here is a proposal: the printer takes it only where it stands for the record's
//! octets.

use crate::comments::{Comments, push_comment};
use crate::outputs::{push_end, push_summary, split_count};
use crate::roster::push_roster;
use message_text::{
    BgpMessage, OspfPacket, push_address, push_hex, push_number, push_number_word, push_parts,
};
use std::alloc::AllocError;

/// A record of a feed or an output, as it lies in the input.
#[derive(Clone, Copy)]
pub struct Raw<'a> {
    pub kind: u8,
    pub source: u32,
    pub body: &'a [u8],
}

/// The record that these octets are. None where they have no whole header.
pub fn raw_of(octets: &[u8]) -> Option<Raw<'_>> {
    match octets {
        [kind, a, b, c, d, _, _, _, _, body @ ..] => Some(Raw {
            kind: *kind,
            source: u32::from_be_bytes([*a, *b, *c, *d]),
            body,
        }),
        _ => None,
    }
}

/// Appends the lines of a record with the names of its kind.
pub fn push_named(text: &mut Vec<u8>, raw: Raw<'_>, comments: Comments) -> Result<(), AllocError> {
    match (raw.kind, raw.body) {
        (b'C', body) => push_roster(text, body),
        (b'E', [a, b, c, d]) => {
            push_word_of(text, b"established ", raw.source)?;
            text.push(b' ')?;
            push_address(text, u32::from_be_bytes([*a, *b, *c, *d]))?;
            end_line(text)
        }
        (b'U', _) => {
            push_word_of(text, b"connect ", raw.source)?;
            end_line(text)
        }
        (b'X', []) => {
            push_word_of(text, b"close ", raw.source)?;
            end_line(text)
        }
        (b'X', [reason @ 1..=4, code, subcode]) => {
            push_word_of(text, b"close ", raw.source)?;
            push_end(text, *reason, *code, *subcode)?;
            push_shown_comment(text, raw, comments)?;
            end_line(text)
        }
        (b'S', body) => {
            push_summary(text, body)?;
            end_line(text)
        }
        (b'B', body) => {
            push_word_of(text, b"bgp ", raw.source)?;
            push_parts::<BgpMessage>(text, body)?;
            push_shown_comment(text, raw, comments)?;
            end_line(text)
        }
        (b'L', body) => {
            text.extend_from_slice(b"ospf")?;
            push_parts::<OspfPacket>(text, body)?;
            end_line(text)
        }
        (b'W', [a, b, c, d, e, f]) => {
            text.extend_from_slice(b"work ")?;
            push_number(text, u64::from(u16::from_be_bytes([*a, *b])))?;
            push_number_word(text, u64::from(u32::from_be_bytes([*c, *d, *e, *f])))?;
            end_line(text)
        }
        (b'D', _) => text.extend_from_slice(b"drain\n"),
        (b'Z', _) => text.extend_from_slice(b"end\n"),
        (b'T', body) => push_count(text, b"time ", body),
        (b'Q', body) => push_count(text, b"ospf-lost ", body),
        _ => push_record(text, raw),
    }
}

/// Appends the line of a record of any kind.
pub fn push_record(text: &mut Vec<u8>, raw: Raw<'_>) -> Result<(), AllocError> {
    text.extend_from_slice(b"record ")?;
    push_hex(text, &[raw.kind])?;
    push_number_word(text, u64::from(raw.source))?;
    text.push(b' ')?;
    push_hex(text, raw.body)?;
    end_line(text)
}

/// A kind, and the number of a connection.
fn push_word_of(text: &mut Vec<u8>, word: &[u8], source: u32) -> Result<(), AllocError> {
    text.extend_from_slice(word)?;
    push_number(text, u64::from(source))
}

/// A kind, and a number of eight octets.
fn push_count(text: &mut Vec<u8>, word: &[u8], body: &[u8]) -> Result<(), AllocError> {
    text.extend_from_slice(word)?;
    if let Some((count, _)) = split_count(body) {
        push_number(text, count)?;
    }
    end_line(text)
}

fn push_shown_comment(
    text: &mut Vec<u8>,
    raw: Raw<'_>,
    comments: Comments,
) -> Result<(), AllocError> {
    match comments {
        Comments::Shown => push_comment(text, raw),
        Comments::LeftOut => Ok(()),
    }
}

fn end_line(text: &mut Vec<u8>) -> Result<(), AllocError> {
    text.push(b'\n')?;
    Ok(())
}
