//! KEEPALIVE messages (RFC 4271 section 4.4): a header alone.

ghost use Rattle.std.specs.Prelude.{◌≡◌, length, take, IfOk};
ghost use Rattle.bgp_msg.specs.Written.{keepalive_octets};

use crate::header::{HEADER_LEN, KEEPALIVE};
use crate::put::put_header;
use rcp_base::NoMemory;
use std::alloc::Global;

/// Writes a KEEPALIVE at the front of `out`, and answers how many octets it has: 19.
pub fn write_keepalive(out: &mut [u8; 4096]) -> usize
    ensures count { result ≡ 19 }
    ensures octets { take result out.new ≡ keepalive_octets }
{
    put_header(out, KEEPALIVE, HEADER_LEN as u16)
}

/// A KEEPALIVE, in a vector of its 19 octets. `NoMemory` where there is no room for it.
pub fn keepalive_message(alloc: Global) -> Result<Vec<u8>, NoMemory>
    ensures count { IfOk result (λ message. length message.items ≡ 19) }
    ensures octets { IfOk result (λ message. message.items ≡ keepalive_octets) }
{
    let mut message = Vec::with_capacity(alloc, HEADER_LEN)?;
    put_header(&mut message, KEEPALIVE, HEADER_LEN as u16);
    Ok(message)
}
