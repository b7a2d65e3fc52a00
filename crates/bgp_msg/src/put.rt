//! The header of a message that is written.

ghost use Rattle.std.specs.Prelude.{◌≡◌, ◌≤◌, ◌++◌, [], ◌∷◌, take};
ghost use Rattle.std.specs.Int.{w16, to_be_bytes};
ghost use Rattle.rcp_model.specs.Messages.{marker};

use crate::header::MARKER;
use octet_room::Room;

/// Writes the header of a message of this type and so many octets at the front (RFC 4271 section 4.1), and answers
/// where its body begins.
pub fn put_header<R: Room>(out: &mut R, kind: u8, len: u16) -> usize
    requires place { R.is_place out.old 0 }
    requires room { 19 ≤ R.size out.old }
    ensures end { result ≡ 19 }
    ensures octets { take result (R.octets out.new) ≡ marker ++ to_be_bytes w16 len ++ kind ∷ [] }
    ensures place { R.is_place out.new result }
    ensures size { R.size out.old ≤ R.size out.new }
{
    let at = out.put(0, &MARKER);
    let at = out.put(at, &len.to_be_bytes());
    out.put(at, &[kind])
}
