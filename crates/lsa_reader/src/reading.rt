// Router LSAs out of octets.
ghost use Rattle.std.specs.Prelude.{◌≡◌, ◌≤◌, ◌+◌, length, Some, None, Err, MatchOption, ok_or};
ghost use Rattle.std.specs.Int.{w16, w32};
ghost use Rattle.rcp_base.specs.Octets.{number_at};
ghost use Rattle.rcp_model.specs.RouterLsas.{link_at, links_in, lsa_at};
ghost use Rattle.lsa_reader.specs.Answers.{Gives};
ghost use Rattle.lsa_reader.specs.Room.{HasLink, TakesRoom};
ghost use Rattle.lsa_reader.specs.declared.lsa.LsaRefusal.TheVariants as refusal;

use crate::checksum::has_zero_sums;
use crate::lsa::{Lsa, LsaLink, LsaRefusal};
use rcp_base::RouterId;
use rcp_model::LsaFault;
use std::alloc::Global;

const BEFORE_LINKS: usize = 24;

const LINK_LEN: usize = 12;

const NO_CHECKSUM: u16 = 0;

/// Reads all of the octets as one router LSA. Its type and its length field are unread.
///
/// `NoMemory` only where there is no room for the links: the octets are long enough, their checksum fits, and they have
/// a link.
pub fn read(alloc: Global, bytes: &[u8]) -> Result<Lsa, LsaRefusal>
    ensures gives { Gives (λ lsa. lsa) result (lsa_at bytes.now) }
    ensures no_memory { result ≡ Err refusal.NoMemory → TakesRoom bytes.now }
{
    if bytes.len() < BEFORE_LINKS {
        return Err(LsaRefusal::Fault(LsaFault::Short));
    }
    let (_, summed) = bytes.split_at(2);
    let checksum = u16_at(bytes, 16);
    if !has_zero_sums(summed) || checksum == NO_CHECKSUM {
        return Err(LsaRefusal::Fault(LsaFault::Checksum));
    }
    let (_, rest) = bytes.split_at(BEFORE_LINKS);
    let links = read_links(alloc, u16_at(bytes, 22), rest)?;
    let router = u32_at(bytes, 8);
    if u32_at(bytes, 4) != router {
        return Err(LsaRefusal::Fault(LsaFault::Owner));
    }
    Ok(Lsa {
        router: RouterId(router),
        age: u16_at(bytes, 0),
        sequence: u32_at(bytes, 12).cast_signed(),
        checksum,
        links,
    })
}

/// So many links, which have to be all of the octets.
fn read_links(alloc: Global, count: u16, bytes: &[u8]) -> Result<Vec<LsaLink>, LsaRefusal>
    ensures gives { Gives (λ links. links.items) result (ok_or (links_in count bytes.now) LsaFault.Links) }
    ensures no_memory { result ≡ Err refusal.NoMemory → HasLink count bytes.now }
{
    let mut links = Vec::new(alloc);
    let mut rest = bytes;
    for _read in 0..count {
        let Some(front) = read_link(rest) else {
            return Err(LsaRefusal::Fault(LsaFault::Links));
        };
        if links.push(front.0).is_err() {
            return Err(LsaRefusal::NoMemory);
        }
        rest = front.1;
    }
    if rest.is_empty() {
        Ok(links)
    } else {
        Err(LsaRefusal::Fault(LsaFault::Links))
    }
}

/// The link in front and the octets after it.
fn read_link(bytes: &[u8]) -> Option<(LsaLink, &[u8])>
    ensures { MatchOption result (link_at bytes.now ≡ None) (λ found. link_at bytes.now ≡ Some (found.0, found.1.now)) }
{
    if bytes.len() < LINK_LEN {
        return None;
    }
    let len = LINK_LEN + 4 * usize::from(bytes[9]);
    if bytes.len() < len {
        return None;
    }
    let link = LsaLink {
        id: u32_at(bytes, 0),
        kind: bytes[8],
        metric: u16_at(bytes, 10),
    };
    let (_, behind) = bytes.split_at(len);
    Some((link, behind))
}

/// The number of two octets that stands at a place.
pub fn u16_at(bytes: &[u8], place: usize) -> u16
    requires { place + 2 ≤ length bytes.now }
    ensures { result ≡ number_at w16 place bytes.now }
{
    let (_, rest) = bytes.split_at(place);
    let (field, _) = rest.split_at(2);
    u16::from_be_bytes([field[0], field[1]])
}

/// The number of four octets that stands at a place.
pub fn u32_at(bytes: &[u8], place: usize) -> u32
    requires { place + 4 ≤ length bytes.now }
    ensures { result ≡ number_at w32 place bytes.now }
{
    let (_, rest) = bytes.split_at(place);
    let (field, _) = rest.split_at(4);
    u32::from_be_bytes([field[0], field[1], field[2], field[3]])
}
