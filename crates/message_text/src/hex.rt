//! Octets in hexadecimal.

ghost use Rattle.std.specs.Prelude.{◌≡◌, ◌++◌, ◌<◌, ◌∷◌, [], OnOk};
ghost use Rattle.line_words.specs.Words.{digit, hex_pairs, hex_text};

use std::alloc::AllocError;

fn digit(n: u8) -> u8
    requires { n < 16 }
    ensures { result ≡ digit n }
{
    if n < 10 { b'0' + n } else { b'a' - 10 + n }
}

/// Appends two digits for each octet.
fn push_pairs(text: &mut Vec<u8>, octets: &[u8]) -> Result<(), AllocError>
    ensures { OnOk result (text.new.items ≡ text.old.items ++ hex_pairs octets.now) }
{
    for octet in octets {
        push_pair(text, *octet)?;
    }
    Ok(())
}

/// Appends the two digits of an octet.
pub fn push_pair(text: &mut Vec<u8>, octet: u8) -> Result<(), AllocError>
    ensures { OnOk result (text.new.items ≡ text.old.items ++ hex_pairs (octet ∷ [])) }
{
    text.push(digit(octet / 16))?;
    text.push(digit(octet % 16))?;
    Ok(())
}

/// Appends `0x` and two digits for each octet.
pub fn push_hex(text: &mut Vec<u8>, octets: &[u8]) -> Result<(), AllocError>
    ensures { OnOk result (text.new.items ≡ text.old.items ++ hex_text octets.now) }
{
    text.extend_from_slice(b"0x")?;
    push_pairs(text, octets)
}

/// A key and octets, unless there are none.
pub fn push_octets_word(text: &mut Vec<u8>, key: &[u8], octets: &[u8]) -> Result<(), AllocError> {
    if octets.is_empty() {
        return Ok(());
    }
    text.extend_from_slice(key)?;
    push_hex(text, octets)
}
