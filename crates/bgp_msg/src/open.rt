//! OPEN messages (RFC 4271 section 4.2), and their faults (section 6.2).

ghost use Rattle.std.specs.Prelude.{◌≡◌, ◌+◌, ◌<◌, ◌≤◌, [], Some, None, length, take, drop, slice_index, OnOk, IfOk, IfErr, MatchOption, MatchResult, IfSome};
ghost use Rattle.rcp_model.specs.Messages.{fault};
ghost use Rattle.rcp_model.specs.Opens.{open_fields, open_octets, is_short_hold, parameter_size};
ghost use Rattle.bgp_fault.specs.Faults.{data_octets, IsWithin};
ghost use Rattle.bgp_msg.specs.Opened.{fields_of, fault_but_identifier, parameters_fault, open_error};

use crate::header::OPEN;
use crate::put::put_header;
use bgp_fault::{
    BAD_PEER_AS, Data, Fault, OPEN_MESSAGE_ERROR, UNACCEPTABLE_HOLD_TIME, UNSPECIFIC,
    UNSUPPORTED_OPTIONAL_PARAMETER, UNSUPPORTED_VERSION_NUMBER,
};
use octet_room::Room;
use rcp_base::{Addr, NoMemory};
use std::alloc::Global;

// The version of the protocol.
const VERSION: u8 = 4;

// The octets of an OPEN without parameters, and those of its body.
const LEAST_OPEN: u16 = 29;

const LEAST_BODY: usize = 10;

// The type of the parameter that holds capabilities (RFC 5492 section 4).
const CAPABILITIES: u8 = 2;

/// What an OPEN offers.
#[derive(Clone, Copy, Debug, PartialEq, Eq)]
pub struct OpenBody {
    /// The sender's Autonomous System.
    pub as_number: u16,
    /// The hold time in seconds: 0, or 3 and more where the OPEN was read.
    pub hold: u16,
    /// The sender's BGP Identifier.
    pub id: Addr,
}

/// Reads the body of an OPEN, of at least 10 octets, as the check of its header leaves it. `local_as` is the AS that the
/// sender has to be of. The first fault in this order (RFC 4271 section 6.2): another version than 4; another AS; a hold
/// time of 1 or 2 seconds; a parameters length that isn't the rest of the body; then the parameters from the front, for
/// each that it runs past the end, and that it isn't capabilities, whose content isn't read. The BGP Identifier isn't
/// judged: where the caller knows which are wanted, it comes before the faults of the parameters.
pub fn read_open(body: &[u8], local_as: u32) -> Result<OpenBody, Fault>
    requires { 10 ≤ length body.now }
    ensures { MatchResult result
        (λ offer. (fault_but_identifier local_as body.now ≡ None) × (fields_of offer ≡ open_fields body.now))
        (λ why. (fault_but_identifier local_as body.now ≡ Some (fault why.code why.sub (data_octets [] why.extra))) × IsWithin [] why.extra) }
{
    if body[0] != VERSION {
        let wanted = Data::Pair(u16::from(VERSION));
        return Err(open_error(UNSUPPORTED_VERSION_NUMBER, wanted));
    }
    let offer = offer_of(body);
    if u32::from(offer.as_number) != local_as {
        return Err(open_error(BAD_PEER_AS, Data::None));
    }
    if is_short_hold(offer.hold) {
        return Err(open_error(UNACCEPTABLE_HOLD_TIME, Data::None));
    }
    let (_, parameters) = body.split_at(LEAST_BODY);
    if usize::from(body[9]) != parameters.len() {
        return Err(open_error(UNSPECIFIC, Data::None));
    }
    if let Err(fault) = check_parameters(parameters) {
        return Err(fault);
    }
    Ok(offer)
}

/// The BGP Identifier in the body of an OPEN, of at least 10 octets.
pub fn identifier_of(body: &[u8]) -> Addr
    requires { 10 ≤ length body.now }
    ensures { result ≡ (open_fields body.now).id }
{
    Addr(u32::from_be_bytes([body[5], body[6], body[7], body[8]]))
}

/// Writes an OPEN without parameters at the front of `out`, and answers how many octets it has: 29.
pub fn write_open(offer: &OpenBody, out: &mut [u8; 4096]) -> usize
    ensures count { result ≡ 29 }
    ensures octets { take result out.new ≡ open_octets (fields_of offer.now) }
{
    put_open(out, offer)
}

/// An OPEN without parameters, in a vector of its 29 octets. `NoMemory` where there is no room for it.
pub fn open_message(alloc: Global, offer: &OpenBody) -> Result<Vec<u8>, NoMemory>
    ensures count { IfOk result (λ message. length message.items ≡ 29) }
    ensures octets { IfOk result (λ message. message.items ≡ open_octets (fields_of offer.now)) }
{
    let mut message = Vec::with_capacity(alloc, usize::from(LEAST_OPEN))?;
    put_open(&mut message, offer);
    Ok(message)
}

/// Writes an OPEN without parameters at the front, and answers how many octets it has.
fn put_open<R: Room>(out: &mut R, offer: &OpenBody) -> usize
    requires place { R.is_place out.old 0 }
    requires room { 29 ≤ R.size out.old }
    ensures count { result ≡ 29 }
    ensures octets { take result (R.octets out.new) ≡ open_octets (fields_of offer.now) }
    ensures place { R.is_place out.new result }
{
    let at = put_header(out, OPEN, LEAST_OPEN);
    let at = out.put(at, &[VERSION]);
    let at = out.put(at, &offer.as_number.to_be_bytes());
    let at = out.put(at, &offer.hold.to_be_bytes());
    let at = out.put(at, &offer.id.0.to_be_bytes());
    out.put(at, &[0])
}

/// What the body of an OPEN offers, not judged yet.
fn offer_of(body: &[u8]) -> OpenBody
    requires { 10 ≤ length body.now }
    ensures { fields_of result ≡ open_fields body.now }
{
    OpenBody {
        as_number: u16::from_be_bytes([body[1], body[2]]),
        hold: u16::from_be_bytes([body[3], body[4]]),
        id: identifier_of(body),
    }
}

/// Whether a hold time is neither 0 nor 3 seconds or more.
fn is_short_hold(hold: u16) -> bool
    ensures { result ≡ is_short_hold hold }
{
    hold == 1 || hold == 2
}

/// Checks that parameters are whole, and each of them capabilities.
fn check_parameters(parameters: &[u8]) -> Result<(), Fault>
    ensures { MatchResult result
        (λ _. parameters_fault parameters.now ≡ None)
        (λ why. (parameters_fault parameters.now ≡ Some (fault why.code why.sub (data_octets [] why.extra))) × IsWithin [] why.extra) }
{
    let mut rest = parameters;
    while !rest.is_empty() {
        let Some((kind, more)) = split_parameter(rest) else {
            return Err(open_error(UNSPECIFIC, Data::None));
        };
        if kind != CAPABILITIES {
            return Err(open_error(UNSUPPORTED_OPTIONAL_PARAMETER, Data::None));
        }
        rest = more;
    }
    Ok(())
}

/// The type of the parameter in front, and what follows it. None where it runs past the end.
#[tactic(auto, unfolding(rcp_model::specs::Opens::parameter_size))]
fn split_parameter(octets: &[u8]) -> Option<(u8, &[u8])>
    ensures size { MatchOption result
        (parameter_size octets.now ≡ None)
        (λ found. parameter_size octets.now ≡ Some (2 + slice_index octets.now 1)) }
    ensures kind { IfSome result (λ found. found.0 ≡ slice_index octets.now 0) }
    ensures rest { IfSome result (λ found. found.1.now ≡ drop (2 + slice_index octets.now 1) octets.now) }
    ensures within { IfSome result (λ found. 2 + slice_index octets.now 1 ≤ length octets.now) }
{
    if octets.len() < 2 {
        return None;
    }
    let size = 2 + usize::from(octets[1]);
    if octets.len() < size {
        return None;
    }
    let (_, rest) = octets.split_at(size);
    Some((octets[0], rest))
}

/// A fault of an OPEN.
fn open_error(sub: u8, extra: Data) -> Fault
    ensures { result ≡ open_error sub extra }
{
    Fault {
        code: OPEN_MESSAGE_ERROR,
        sub,
        extra,
    }
}
