//! The line of any octets.

ghost use Rattle.std.specs.Prelude.{◌≡◌, ◌++◌, OnOk};
ghost use Rattle.feed_words.specs.Joining.{octets_line};

use message_text::push_hex;
use std::alloc::AllocError;

/// Appends the line of these octets.
pub fn push_octets_line(text: &mut Vec<u8>, octets: &[u8]) -> Result<(), AllocError>
    ensures { OnOk result (text.new.items ≡ text.old.items ++ octets_line octets.now) }
{
    text.extend_from_slice(b"octets ")?;
    push_hex(text, octets)?;
    text.push(b'\n')?;
    Ok(())
}
