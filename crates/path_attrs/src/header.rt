//! What stands before the value of an attribute: flags, type and length (RFC 4271, section 4.3).

ghost use Rattle.std.specs.Prelude.{◌≡◌, ◌<◌, ◌≤◌, length, take, Some, None, IfNone, IfSome};
ghost use Rattle.rcp_model.specs.Attributes as model;
ghost use Rattle.rcp_model.specs.Attributes.{attribute_size};

use crate::flags::is_extended;

/// How many octets stand before the value.
pub fn value_place(octets: &[u8]) -> usize
    requires { 0 < length octets.now }
    ensures place { result ≡ model.value_place octets.now }
    ensures three_or_four { (3 ≤ result) × (result ≤ 4) }
{
    if is_extended(octets[0]) { 4 } else { 3 }
}

/// How many octets the value has.
fn value_length(octets: &[u8]) -> u16
    requires some { 0 < length octets.now }
    requires header { model.value_place octets.now ≤ length octets.now }
    ensures { result ≡ model.value_length octets.now }
{
    if is_extended(octets[0]) {
        u16::from_be_bytes([octets[2], octets[3]])
    } else {
        u16::from(octets[2])
    }
}

/// The attribute in front, or None where it runs past the end.
#[tactic(auto, unfolding(rcp_model::specs::Attributes::attribute_size))]
pub fn first_attribute(octets: &[u8]) -> Option<&[u8]>
    requires { 0 < length octets.now }
    ensures none { IfNone result (attribute_size octets.now ≡ None) }
    ensures size { IfSome result (λ piece. attribute_size octets.now ≡ Some (length piece.now)) }
    ensures piece { IfSome result (λ piece. piece.now ≡ take (length piece.now) octets.now) }
    ensures long { IfSome result (λ piece. 3 ≤ length piece.now) }
    ensures header { IfSome result (λ piece. model.value_place piece.now ≤ length piece.now) }
{
    let place = value_place(octets);
    if octets.len() < place {
        return None;
    }
    let size = place + usize::from(value_length(octets));
    if octets.len() < size {
        return None;
    }
    Some(&octets[..size])
}
