//! The message in front of a list of octets (RFC 4271 section 4.1): the one place where a stream is cut into messages.

ghost use Rattle.std.specs.Prelude.{◌≡◌, ◌+◌, [], Some, None, length, IfOk, IfSome, MatchOption, MatchResult};
ghost use Rattle.rcp_model.specs.Messages.{fault, message_size};
ghost use Rattle.rcp_model.specs.Sessions.{fault_in_front};
ghost use Rattle.bgp_fault.specs.Faults.{data_octets, IsWithin};
ghost use Rattle.bgp_msg.specs.Cutting.{IsInFront};
ghost use Rattle.bgp_msg.specs.HeaderFields.{IsLengthOf};

use crate::header::{HEADER_LEN, read_header};
use bgp_fault::Fault;

/// A whole message.
#[derive(Clone, Copy, Debug)]
pub struct Message<'a> {
    /// The type, of which there are constants: 1 to 4.
    pub kind: u8,
    /// The octets after the header, as many as the type may have: at most 4,077.
    pub body: &'a [u8],
}

/// The whole message in front. None where there is none yet. The fault of a header comes as soon as its 19 octets are
/// there (RFC 4271 section 6.1). Only the octets of the header are looked at.
pub fn first_message(octets: &[u8]) -> Result<Option<Message<'_>>, Fault>
    ensures given { MatchResult result
        (λ found. MatchOption found
        ((message_size octets.now ≡ None) × (fault_in_front octets.now ≡ None))
        (λ m. IsInFront octets.now m.kind m.body.now))
        (λ why. (message_size octets.now ≡ None) × (fault_in_front octets.now ≡ Some (fault why.code why.sub (data_octets [] why.extra))) × IsWithin [] why.extra) }
    ensures lengths { IfOk result (λ found. IfSome found (λ m. IsLengthOf m.kind (19 + length m.body.now))) }
{
    if octets.len() < HEADER_LEN {
        return Ok(None);
    }
    let header = match read_header(octets) {
        Ok(header) => header,
        Err(fault) => return Err(fault),
    };
    let len = usize::from(header.len);
    if octets.len() < len {
        return Ok(None);
    }
    let (message, _) = octets.split_at(len);
    let (_, body) = message.split_at(HEADER_LEN);
    Ok(Some(Message {
        kind: header.kind,
        body,
    }))
}
