//! Records of an output in words.

use message_text::push_number;
use std::alloc::AllocError;

/// Appends the reason of a connection's end, and the code and subcode of its NOTIFICATION.
pub fn push_end(text: &mut Vec<u8>, reason: u8, code: u8, subcode: u8) -> Result<(), AllocError> {
    let word = match reason {
        1 => b" fault ".as_slice(),
        2 => b" received ",
        3 => return text.extend_from_slice(b" peer-closed"),
        _ => b" seat-taken ",
    };
    text.extend_from_slice(word)?;
    push_number(text, u64::from(code))?;
    text.push(b'/')?;
    push_number(text, u64::from(subcode))
}

/// Appends a summary: connected routers, announced prefixes, and UPDATEs written so far.
pub fn push_summary(text: &mut Vec<u8>, body: &[u8]) -> Result<(), AllocError> {
    let mut rest = body;
    for word in [b"summary routers=".as_slice(), b" prefixes=", b" updates="] {
        let Some((count, more)) = split_count(rest) else {
            return Ok(());
        };
        text.extend_from_slice(word)?;
        push_number(text, count)?;
        rest = more;
    }
    Ok(())
}

/// The number of eight octets in front, and the octets after it.
pub fn split_count(octets: &[u8]) -> Option<(u64, &[u8])> {
    let [a, b, c, d, e, f, g, h, rest @ ..] = octets else {
        return None;
    };
    let count = u64::from_be_bytes([*a, *b, *c, *d, *e, *f, *g, *h]);
    Some((count, rest))
}
