//! The lines of a roster's text.

use crate::checker::split_line;
use message_text::push_pair;
use std::alloc::AllocError;

/// Appends `roster` and the lines of its text.
pub fn push_roster(text: &mut Vec<u8>, body: &[u8]) -> Result<(), AllocError> {
    text.extend_from_slice(b"roster\n")?;
    let mut rest = body;
    while let Some((line, more)) = split_line(rest) {
        push_line(text, b"|", line)?;
        rest = more;
    }
    if rest.is_empty() {
        return Ok(());
    }
    push_line(text, b"|-", rest)
}

fn push_line(text: &mut Vec<u8>, mark: &[u8], line: &[u8]) -> Result<(), AllocError> {
    text.extend_from_slice(mark)?;
    if !line.is_empty() {
        text.push(b' ')?;
        push_escaped(text, line)?;
    }
    text.push(b'\n')?;
    Ok(())
}

/// Appends a line: `\\` for a backslash, `\x` and two digits for an octet that isn't printed and for a blank at the end.
fn push_escaped(text: &mut Vec<u8>, line: &[u8]) -> Result<(), AllocError> {
    for (place, octet) in line.iter().enumerate() {
        let is_last_blank = *octet == b' ' && place + 1 == line.len();
        match *octet {
            b'\\' => text.extend_from_slice(b"\\\\")?,
            b' '..=b'~' if !is_last_blank => text.push(*octet)?,
            other => {
                text.extend_from_slice(b"\\x")?;
                push_pair(text, other)?;
            }
        }
    }
    Ok(())
}
