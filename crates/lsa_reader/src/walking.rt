// The LSAs of a Link State Update, one after another.
ghost use Rattle.std.specs.Prelude.{◌≡◌, ◌≤◌, ◌<◌, ◌+◌, ◌-◌, ◌↔◌, ℕ, length, drop, Some, None, Ok, Err, true, IsNone, IsTrue, IfOk, IfErr, IfSome, MatchOption, slice_index};
ghost use Rattle.rcp_model.specs.LsaWalk.{first_place, lsa_count, lsa_len as len_of};
ghost use Rattle.lsa_reader.specs.Walking.{place_after, IsOnWalk, IsStep};

use crate::reading::{u16_at, u32_at};
use rcp_model::LsaFault;

const FIRST_PLACE: usize = 28;

const HEADER_LEN: usize = 20;

/// The length and the type of the LSA that stands at a place of a Link State Update. None where as many LSAs as the
/// packet counts end at or before the place. `Short` where the packet has no whole LSA there.
pub fn next_lsa(packet: &[u8], place: usize) -> Option<Result<(usize, u8), LsaFault>>
    requires whole { first_place ≤ length packet.now }
    requires on_walk { IsOnWalk packet.now place }
    ensures none { IsNone result ↔ (place_after (lsa_count packet.now) packet.now ≡ Some place) }
    ensures lsa { IfSome result (λ found. IfOk found (λ lsa.
        (len_of (drop place packet.now) ≡ Some lsa.0) × (lsa.1 ≡ slice_index packet.now (place + 3)))) }
    ensures within { IfSome result (λ found. IfOk found (λ lsa. place + lsa.0 ≤ length packet.now)) }
    ensures short { IfSome result (λ found. IfErr found (λ fault.
        (fault ≡ LsaFault.Short) × (len_of (drop place packet.now) ≡ None))) }

    // It is a step of the walk over the packet's LSAs, and the place after an LSA is on the walk too.
    ensures step { (n : ℕ) → n ≤ lsa_count packet.now → place_after n packet.now ≡ Some place →
        IsStep (lsa_count packet.now - n) (drop place packet.now) result }
    ensures goes_on { IfSome result (λ found. IfOk found (λ lsa. IsOnWalk packet.now (place + lsa.0))) }
{
    if is_done(packet, place) {
        return None;
    }
    let (_, rest) = packet.split_at(place);
    match lsa_len(rest) {
        Some(len) => Some(Ok((len, packet[place + 3]))),
        None => Some(Err(LsaFault::Short)),
    }
}

/// Whether as many LSAs as the packet counts end at or before the place.
fn is_done(packet: &[u8], place: usize) -> bool
    requires whole { first_place ≤ length packet.now }
    requires on_walk { IsOnWalk packet.now place }
    ensures done { IsTrue result ↔ (place_after (lsa_count packet.now) packet.now ≡ Some place) }
    ensures within { place ≤ length packet.now }
{
    let mut at = FIRST_PLACE;
    for _ended in 0..u32_at(packet, 24) {
        if at == place {
            return false;
        }
        let (_, rest) = packet.split_at(at);
        let Some(len) = lsa_len(rest) else {
            return false;
        };
        at += len;
    }
    true
}

/// The length of the LSA in front.
fn lsa_len(bytes: &[u8]) -> Option<usize>
    ensures value { result ≡ len_of bytes.now }
    ensures within { IfSome result (λ len. (20 ≤ len) × (len ≤ length bytes.now)) }
{
    if bytes.len() < HEADER_LEN {
        return None;
    }
    let len = usize::from(u16_at(bytes, 18));
    if len < HEADER_LEN || bytes.len() < len {
        None
    } else {
        Some(len)
    }
}
