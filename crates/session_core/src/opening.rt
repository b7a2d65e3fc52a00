//! The OPEN of a router (RFC 4271 sections 4.2 and 6.2).

ghost use Rattle.std.specs.Prelude.{◌≡◌, ◌≤◌, [], Some, None, length, min, MatchResult};
ghost use Rattle.bgp_fault.specs.Faults.{IsWithin};
ghost use Rattle.bgp_msg.specs.Opened.{fields_of, is_behind_identifier};
ghost use Rattle.path_attrs.specs.Refusals.{fault_in};
ghost use Rattle.rcp_model.specs.Opens.{open_fields};
ghost use Rattle.rcp_model.specs.Sessions.{slot_by_identifier, opening_fault};

use bgp_fault::{
    BAD_BGP_IDENTIFIER, Data, Fault, OPEN_MESSAGE_ERROR, UNSPECIFIC, UNSUPPORTED_OPTIONAL_PARAMETER,
};
use bgp_msg::{OpenBody, identifier_of, read_open};
use rcp_base::Slot;
use roster::Roster;

// No router of the roster has the identifier.
const UNKNOWN_IDENTIFIER: Fault = Fault {
    code: OPEN_MESSAGE_ERROR,
    sub: BAD_BGP_IDENTIFIER,
    extra: Data::None,
};

/// The OPEN of a router of the roster.
#[derive(Clone, Copy, Debug)]
pub struct PeerOpen {
    pub slot: Slot,
    /// The hold time, in seconds.
    pub hold: u16,
}

/// Reads the body of an OPEN, of at least 10 octets, or gives its first fault: another version than 4; another AS than
/// the roster's; a hold time of 1 or 2 seconds; a BGP Identifier that the roster doesn't have; and then those of the
/// parameters.
pub fn read_peer_open(roster: &Roster, body: &[u8]) -> Result<PeerOpen, Fault>
    requires { 10 ≤ length body.now }
    ensures { MatchResult result
        (λ peer. (opening_fault roster.now body.now ≡ None)
        × (slot_by_identifier roster.now.members (open_fields body.now).id ≡ Some peer.slot)
        × (peer.hold ≡ (open_fields body.now).hold))
        (λ fault. (opening_fault roster.now body.now ≡ Some (fault_in [] fault)) × IsWithin [] fault.extra) }
{
    let known = roster.slot_of_bgp(identifier_of(body));
    let open = match read_open(body, roster.as_number()) {
        Ok(open) => open,
        Err(fault) => {
            if known.is_none() && is_of_parameters(&fault) {
                return Err(UNKNOWN_IDENTIFIER);
            }
            return Err(fault);
        }
    };
    match known {
        Some(slot) => Ok(PeerOpen {
            slot,
            hold: open.hold,
        }),
        None => Err(UNKNOWN_IDENTIFIER),
    }
}

/// Whether a fault of an OPEN is one of its parameters.
fn is_of_parameters(fault: &Fault) -> bool
    ensures { result ≡ is_behind_identifier (Some (fault_in [] fault.now)) }
{
    fault.sub == UNSPECIFIC || fault.sub == UNSUPPORTED_OPTIONAL_PARAMETER
}
