//! Numbers and addresses as text.

ghost use Rattle.std.specs.Prelude.{◌≡◌, ◌++◌, ◌∷◌, decimal, OnOk};
ghost use Rattle.rcp_base.specs.Text.{address_text};

use itoa::Buffer;
use rcp_base::{Addr, write_addr};
use std::alloc::AllocError;

/// Appends the decimal digits of a number.
pub fn push_number(text: &mut Vec<u8>, number: u64) -> Result<(), AllocError>
    ensures { OnOk result (text.new.items ≡ text.old.items ++ decimal number) }
{
    let mut buffer = Buffer::new();
    text.extend_from_slice(buffer.format(number).as_bytes())
}

/// Appends a blank and the decimal digits of a number.
pub fn push_number_word(text: &mut Vec<u8>, number: u64) -> Result<(), AllocError>
    ensures { OnOk result (text.new.items ≡ text.old.items ++ 32 ∷ decimal number) }
{
    text.push(b' ')?;
    push_number(text, number)
}

/// Appends an address: four numbers with dots between them.
pub fn push_address(text: &mut Vec<u8>, address: u32) -> Result<(), AllocError>
    ensures { OnOk result (text.new.items ≡ text.old.items ++ address_text address) }
{
    let mut octets = [0; 15];
    let count = write_addr(Addr(address), &mut octets);
    text.extend_from_slice(&octets[..count])
}
