// What a router LSA says, and why none was read.
ghost use Rattle.std.specs.Prelude.{◌≡◌};
ghost use Rattle.lsa_reader.specs.Faults.{number_of_fault};

use rcp_base::RouterId;
use rcp_model::LsaFault;
use std::marker::Model;
use thiserror::Error;

/// The type of a router LSA (RFC 2328 section A.4.1).
pub const ROUTER_LSA: u8 = 1;

/// Link types of a router LSA (RFC 2328 section A.4.2).
pub const POINT_TO_POINT: u8 = 1;

pub const TRANSIT: u8 = 2;

pub const STUB: u8 = 3;

pub const VIRTUAL: u8 = 4;

/// A link of a router LSA: its link ID, its type as it stands in the octets, and its metric. The type is one of the
/// four above, or another, which no one uses.
#[derive(Clone, Copy, Debug, PartialEq, Eq)]
pub struct LsaLink {
    pub id: u32,
    pub kind: u8,
    pub metric: u16,
}

impl Model for LsaLink {
    ghost use Rattle.rcp_model.specs.LinkState.{RouterLink};

    ghost Value = { RouterLink };

    ghost view = { λ l. record { id = l.id; kind = l.kind; metric = l.metric } };

    ghost inverse = { λ l. record { id = l.id; kind = l.kind; metric = l.metric } };
}

/// A router LSA (RFC 2328 section A.4.2): the router that it describes and that advertises it, its age in seconds,
/// its sequence number, its checksum and its links. Contracts see the record of these.
#[derive(Debug, Drop)]
pub struct Lsa {
    pub router: RouterId,
    pub age: u16,
    pub sequence: i32,
    pub checksum: u16,
    pub links: Vec<LsaLink>,
}

impl Model for Lsa {
    ghost use Rattle.rcp_model.specs.LinkState.{RouterLsa};

    ghost Value = { RouterLsa };

    ghost view = { λ l. record { key = l.router; header = record { sequence = l.sequence; checksum = l.checksum; age = l.age }; content = l.links.items } };
}

/// Why no LSA was read.
#[derive(Clone, Copy, Debug, PartialEq, Eq, Error)]
pub enum LsaRefusal {
    #[error("{0}")]
    Fault(LsaFault),
    #[error("no memory")]
    NoMemory,
}

/// The number of a fault: 1 to 4, in the order of the checks.
pub fn number_of_fault(fault: LsaFault) -> u8
    ensures { result ≡ number_of_fault fault }
{
    fault as u8
}
