//! NOTIFICATION messages (RFC 4271 section 4.5).

ghost use Rattle.std.specs.Prelude.{◌≡◌, ◌+◌, ◌≤◌, ◌∷◌, ◌++◌, length, take, IfOk};
ghost use Rattle.bgp_fault.specs.Faults.{data_octets, IsWithin};
ghost use Rattle.bgp_msg.specs.Written.{data_length};
ghost use Rattle.rcp_model.specs.Messages.{notification_octets};

use crate::header::NOTIFICATION;
use crate::put::put_header;
use bgp_fault::{Data, Fault};
use octet_room::Room;
use rcp_base::NoMemory;
use std::alloc::Global;

// The octets of a NOTIFICATION without data.
const LEAST_NOTIFICATION: usize = 21;

/// What a NOTIFICATION says.
#[derive(Clone, Copy, Debug)]
pub struct Notification<'a> {
    /// The error code.
    pub code: u8,
    /// The error subcode.
    pub sub: u8,
    /// The data.
    pub content: &'a [u8],
}

/// Reads the body of a NOTIFICATION, of at least 2 octets, as the check of its header leaves it. Any code and subcode
/// is taken.
pub fn read_notification(body: &[u8]) -> Notification<'_>
    requires { 2 ≤ length body.now }
    ensures { body.now ≡ result.code ∷ result.sub ∷ result.content.now }
{
    let (_, content) = body.split_at(2);
    Notification {
        code: body[0],
        sub: body[1],
        content,
    }
}

/// Writes the NOTIFICATION of a fault at the front of `out`, and answers how many octets it has: 21 to 4,094. `body` is
/// the octets in which the fault was found: a span of the fault names at most 4,073 of them.
pub fn write_notification(fault: &Fault, body: &[u8], out: &mut [u8; 4096]) -> usize
    requires within { IsWithin body.now fault.now.extra }
    requires room { data_length fault.now.extra ≤ 4073 }
    ensures count { result ≡ 21 + data_length fault.now.extra }
    ensures octets { take result out.new ≡ notification_octets (record { code = fault.now.code; sub = fault.now.sub; content = data_octets body.now fault.now.extra }) }
{
    put_notification(out, fault, body)
}

/// The NOTIFICATION of a fault, in a vector of its 21 to 4,094 octets. `body` is the octets in which the fault was found.
/// `NoMemory` where there is no room for it.
pub fn notification_message(alloc: Global, fault: &Fault, body: &[u8]) -> Result<Vec<u8>, NoMemory>
    requires within { IsWithin body.now fault.now.extra }
    requires room { data_length fault.now.extra ≤ 4073 }
    ensures count { IfOk result (λ message. length message.items ≡ 21 + data_length fault.now.extra) }
    ensures octets { IfOk result (λ message. message.items ≡ notification_octets (record { code = fault.now.code; sub = fault.now.sub; content = data_octets body.now fault.now.extra })) }
{
    let mut message = Vec::with_capacity(alloc, LEAST_NOTIFICATION + data_len(fault.extra))?;
    put_notification(&mut message, fault, body);
    Ok(message)
}

/// Writes the NOTIFICATION of a fault at the front, and answers how many octets it has.
fn put_notification<R: Room>(out: &mut R, fault: &Fault, body: &[u8]) -> usize
    requires within { IsWithin body.now fault.now.extra }
    requires short { data_length fault.now.extra ≤ 4073 }
    requires place { R.is_place out.old 0 }
    requires room { 21 + data_length fault.now.extra ≤ R.size out.old }
    ensures count { result ≡ 21 + data_length fault.now.extra }
    ensures octets { take result (R.octets out.new) ≡ notification_octets (record { code = fault.now.code; sub = fault.now.sub; content = data_octets body.now fault.now.extra }) }
    ensures place { R.is_place out.new result }
{
    let count = LEAST_NOTIFICATION + data_len(fault.extra);
    let at = put_header(out, NOTIFICATION, count as u16);
    let at = out.put(at, &[fault.code, fault.sub]);
    put_data(out, at, fault.extra, body)
}

/// How many octets the data of a fault has.
fn data_len(extra: Data) -> usize
    ensures { result ≡ data_length extra }
{
    match extra {
        Data::None => 0,
        Data::Octet(_) => 1,
        Data::Pair(_) => 2,
        Data::Span { len, .. } => usize::from(len),
    }
}

/// Writes the data of a fault after the first `at` octets, and answers where it ends.
fn put_data<R: Room>(out: &mut R, at: usize, extra: Data, body: &[u8]) -> usize
    requires within { IsWithin body.now extra }
    requires place { R.is_place out.old at }
    requires room { at + data_length extra ≤ R.size out.old }
    ensures end { result ≡ at + data_length extra }
    ensures octets { take result (R.octets out.new) ≡ take at (R.octets out.old) ++ data_octets body.now extra }
    ensures place { R.is_place out.new result }
{
    match extra {
        Data::None => at,
        Data::Octet(octet) => out.put(at, &[octet]),
        Data::Pair(number) => out.put(at, &number.to_be_bytes()),
        Data::Span { start, len } => {
            let start = usize::from(start);
            out.put(at, &body[start..start + usize::from(len)])
        }
    }
}
