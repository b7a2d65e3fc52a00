//! Links of a router LSA as words.

ghost use Rattle.std.specs.Prelude.{◌≡◌, ◌++◌, ◌∷◌, ◌<◌, ◌^◌, List, ℕ, [], length, Option, Some, None, IfOk, MatchOption, if◌then◌else◌};
ghost use Rattle.line_words.specs.Lists.{IsTaken};
ghost use Rattle.line_words.specs.Fields.{texts};
ghost use Rattle.ospf_words.specs.Links.{numbered, link_type, link_data, ends_of, tos_octets, link_octets, costs_onto, link_value_onto, link_onto};

use line_words::{Taken, Word, halves, push_hex, split_at_first, u8_in, u16_in};
use lsa_reader::{POINT_TO_POINT, STUB, TRANSIT, VIRTUAL};
use rcp_base::read_addr;
use std::alloc::AllocError;

/// The two ends of a link: its Link ID and its Link Data (RFC 2328 section A.4.2).
#[derive(Clone, Copy)]
pub struct Ends {
    pub id: u32,
    pub link_data: u32,
}

/// The most octets of TOS metrics: a link has at most 255, of four octets each.
const MOST_TOS: usize = 1020;

/// The type of a link by its name.
#[tactic(auto, unfolding(crate::specs::Links::link_type))]
fn link_type(name: &[u8]) -> Option<u8>
    ensures { result ≡ link_type name.now }
{
    if name == b"point-to-point".as_slice() {
        Some(POINT_TO_POINT)
    } else if name == b"transit".as_slice() {
        Some(TRANSIT)
    } else if name == b"stub".as_slice() {
        Some(STUB)
    } else if name == b"virtual".as_slice() {
        Some(VIRTUAL)
    } else {
        numbered(name)
    }
}

/// `link-` and a type.
fn numbered(name: &[u8]) -> Option<u8>
    ensures { result ≡ numbered name.now }
{
    let digits = name.strip_prefix(b"link-".as_slice())?;
    u8_in(digits)
}

/// The Link Data, which may be absent where it is 0.
fn link_data(text: Option<&[u8]>) -> Option<u32>
    ensures { result ≡ link_data (texts text.entry) }
{
    match text {
        Some(text) => Some(read_addr(text)?.0),
        None => Some(0),
    }
}

fn ends_in(text: &[u8]) -> Option<Ends>
    ensures { result ≡ ends_of text.now }
{
    let (id, data) = split_at_first(text, b'@');
    let id = read_addr(id)?.0;
    let link_data = link_data(data)?;
    Some(Ends { id, link_data })
}

/// Appends the octets of TOS metrics, which may be absent.
fn push_tos(out: &mut Vec<u8>, text: Option<&[u8]>) -> Result<bool, AllocError>
    requires { out.old.items ≡ [] }
    ensures { IfOk result (λ read. tos_octets (texts text.entry) ≡ (if read then Some out.new.items else None)) }
{
    match text {
        Some(text) => push_hex(out, text),
        None => Ok(true),
    }
}

/// Appends a link.
#[tactic(auto, unfolding(crate::specs::Links::link_octets))]
fn push_link(
    out: &mut Vec<u8>,
    kind: u8,
    ends: Ends,
    metric: u16,
    tos: &[u8],
) -> Result<bool, AllocError>
    ensures { IfOk result (λ read. link_octets out.old.items kind ends metric tos.now ≡ (if read then Some out.new.items else None)) }
{
    if tos.len() > MOST_TOS {
        return Ok(false);
    }
    if tos.len() % 4 != 0 {
        return Ok(false);
    }
    out.extend_from_slice(&ends.id.to_be_bytes())?;
    out.extend_from_slice(&ends.link_data.to_be_bytes())?;
    out.push(kind)?;
    out.push((tos.len() / 4) as u8)?;
    out.extend_from_slice(&metric.to_be_bytes())?;
    out.extend_from_slice(tos)?;
    Ok(true)
}

/// Appends a link with these costs.
fn push_costs(out: &mut Vec<u8>, kind: u8, ends: Ends, text: &[u8]) -> Result<bool, AllocError>
    ensures { IfOk result (λ read. costs_onto out.old.items kind ends text.now ≡ (if read then Some out.new.items else None)) }
{
    let (metric, tos_text) = split_at_first(text, b'+');
    let Some(metric) = u16_in(metric) else {
        return Ok(false);
    };
    let mut tos = Vec::new(*out.allocator());
    if !push_tos(&mut tos, tos_text)? {
        return Ok(false);
    }
    push_link(out, kind, ends, metric, &tos)
}

/// Appends a link of this type.
#[tactic(auto, unfolding(crate::specs::Links::link_value_onto))]
fn push_value(out: &mut Vec<u8>, kind: u8, text: &[u8]) -> Result<bool, AllocError>
    ensures { IfOk result (λ read. link_value_onto out.old.items kind text.now ≡ (if read then Some out.new.items else None)) }
{
    let Some((ends, costs)) = halves(text, b':') else {
        return Ok(false);
    };
    let Some(ends) = ends_in(ends) else {
        return Ok(false);
    };
    push_costs(out, kind, ends, costs)
}

/// A word of a link.
pub struct Link;

impl Word for Link {
    ghost onto = { link_onto };

    #[tactic(auto, unfolding(crate::specs::Links::link_onto))]
    fn push(out: &mut Vec<u8>, text: &[u8]) -> Result<Taken, AllocError> {
        let Some((name, value)) = halves(text, b'=') else {
            return Ok(Taken::Other);
        };
        let Some(kind) = link_type(name) else {
            return Ok(Taken::Other);
        };
        if push_value(out, kind, value)? {
            Ok(Taken::Pushed)
        } else {
            Ok(Taken::Unreadable)
        }
    }
}
