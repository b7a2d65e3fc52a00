//! The body of an UPDATE, read with its attributes.

ghost use Rattle.std.specs.Prelude.{◌≡◌, ◌≤◌, ◌==◌, true, not, length, None, OnOk, IfOk, IfErr};
ghost use Rattle.rcp_model.specs.Attributes.{number_width};
ghost use Rattle.rcp_model.specs.Attributes as attributes;
ghost use Rattle.rcp_model.specs.Updates.{prefixes_fault, update_fault};
ghost use Rattle.session_core.specs.Updates.{Says, IfFaulty, IsFirst};

use bgp_fault::Fault;
use bgp_msg::{check_prefixes, read_update};
use path_attrs::{AttrRefusal, Attrs, read};
use std::alloc::Global;

/// An UPDATE without a fault.
#[derive(Debug, Drop)]
pub struct FaultlessUpdate<'a> {
    /// The octets of the withdrawn routes.
    pub withdrawn: &'a [u8],
    /// The octets of the NLRI.
    pub nlri: &'a [u8],
    pub attrs: Attrs,
}

/// A fault, and the octets in which a span of it is counted.
#[derive(Clone, Copy, Debug)]
pub struct Found<'a> {
    pub fault: Fault,
    pub octets: &'a [u8],
}

/// Why a body isn't read: for its first fault, or for want of memory.
#[derive(Clone, Copy, Debug)]
pub enum Unread<'a> {
    Faulty(Found<'a>),
    NoMemory,
}

/// Reads the body of an UPDATE of at most 4,096 octets, or gives its first fault in the order of RFC 4271 section 6.3:
/// that of its section lengths, of its attributes, of its withdrawn routes, of its NLRI.
pub fn read_body(alloc: Global, body: &[u8]) -> Result<FaultlessUpdate<'_>, Unread<'_>>
    requires { length body.now ≤ 4077 }
    ensures faultless { OnOk result (update_fault number_width body.now ≡ None) }
    ensures read { IfOk result (λ u. Says body.now u.withdrawn.now u.nlri.now u.attrs) }
    ensures withdrawn { IfOk result (λ u. prefixes_fault u.withdrawn.now ≡ None) }
    ensures nlri { IfOk result (λ u. prefixes_fault u.nlri.now ≡ None) }
    ensures complete { IfOk result (λ u. not (length u.nlri.now == 0) ≡ true → attributes.has_route u.attrs ≡ true) }
    ensures first_fault { IfErr result (λ why. IfFaulty why (λ found. IsFirst body.now found)) }
{
    let sections = match read_update(body) {
        Ok(sections) => sections,
        Err(fault) => {
            return Err(Unread::Faulty(Found {
                fault,
                octets: body,
            }));
        }
    };
    let attrs = match read(alloc, sections.attrs, !sections.nlri.is_empty()) {
        Ok(attrs) => attrs,
        Err(AttrRefusal::Fault(fault)) => {
            return Err(Unread::Faulty(Found {
                fault,
                octets: sections.attrs,
            }));
        }
        Err(AttrRefusal::NoMemory) => return Err(Unread::NoMemory),
    };
    if let Err(fault) = check_prefixes(sections.withdrawn) {
        return Err(Unread::Faulty(Found {
            fault,
            octets: sections.withdrawn,
        }));
    }
    if let Err(fault) = check_prefixes(sections.nlri) {
        return Err(Unread::Faulty(Found {
            fault,
            octets: sections.nlri,
        }));
    }
    Ok(FaultlessUpdate {
        withdrawn: sections.withdrawn,
        nlri: sections.nlri,
        attrs,
    })
}
