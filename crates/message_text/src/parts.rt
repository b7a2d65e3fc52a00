//! Messages one after another as the parts of a line.

ghost use Rattle.std.specs.Prelude.{◌<◌, length, IfSome};

use crate::hex::push_hex;
use std::alloc::AllocError;

/// A message as it lies in the body of a record.
pub trait Message<'a>: Sized + Drop {
    /// The message in front, and the octets after it. None where no whole message stands there.
    fn split(octets: &'a [u8]) -> Option<(Self, &'a [u8])>
        ensures { IfSome result (λ found. length found.1.now < length octets.now) };

    /// Appends the words of the message.
    fn push(&self, text: &mut Vec<u8>) -> Result<(), AllocError>;
}

/// Appends the messages of a record's body as parts with `;` between them, and what stands in no whole message as octets.
pub fn push_parts<'a, M: Message<'a>>(
    text: &mut Vec<u8>,
    body: &'a [u8],
) -> Result<(), AllocError> {
    let mut rest = body;
    let mut mark = b" ".as_slice();
    while let Some((message, more)) = M::split(rest) {
        text.extend_from_slice(mark)?;
        message.push(text)?;
        mark = b" ; ".as_slice();
        rest = more;
    }
    if rest.is_empty() {
        return Ok(());
    }
    text.extend_from_slice(mark)?;
    text.extend_from_slice(b"octets ")?;
    push_hex(text, rest)
}
