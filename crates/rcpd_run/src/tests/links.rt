//! Links in memory that gates hold.

ghost use Rattle.std.specs.Prelude.{All};
ghost use Rattle.outside.specs.Links.{IsFresh};

use outside::{HeldGate, HeldLink, Link, MemLink, MemNet};
use rcp_base::NoMemory;
use std::alloc::Global;
use std::sync::Arc;
use std::test::Fail;

/// The types of a BGP message's header (RFC 4271 section 4.1).
pub(super) const UPDATE: u8 = 2;

pub(super) const NOTIFICATION: u8 = 3;

pub(super) const KEEPALIVE: u8 = 4;

/// The OPEN of the router 10.0.0.1 with the hold time 30, and a KEEPALIVE, each with its marker (RFC 4271 sections 4.1, 4.2, 4.4).
const OPENED: &[u8] =
    b"\xff\xff\xff\xff\xff\xff\xff\xff\xff\xff\xff\xff\xff\xff\xff\xff\x00\x1d\x01\x04\xfd\xe8\x00\x1e\x0a\x00\x00\x01\x00\xff\xff\xff\xff\xff\xff\xff\xff\xff\xff\xff\xff\xff\xff\xff\xff\x00\x13\x04";

/// Where the last octet of the BGP Identifier stands in an OPEN.
const LAST_OF_IDENTIFIER: usize = 27;

/// What the router 10.0.0.`number` sends: its OPEN, a KEEPALIVE, and then these octets.
pub(super) fn octets_of(alloc: Global, number: u8, then: &[u8]) -> Result<Vec<u8>, NoMemory> {
    let mut octets = Vec::from_slice(alloc, OPENED)?;
    octets[LAST_OF_IDENTIFIER] = number;
    octets.extend_from_slice(then)?;
    Ok(octets)
}

/// The gates of a link: it begins once `before` is open and ends once `after` is, and at its k-th message of the type `at` it opens the k-th of `opens`.
#[derive(Drop)]
pub(super) struct Gates {
    pub(super) before: Arc<HeldGate>,
    pub(super) after: Arc<HeldGate>,
    pub(super) at: u8,
    pub(super) opens: Vec<Arc<HeldGate>>,
}

/// Links that nobody has used.
#[derive(Drop)]
pub(super) struct Links {
    all: Vec<HeldLink>,
    ghost fresh: { All (λ link. IsFresh (⟦<HeldLink as Link>⟧.faults link) (⟦<HeldLink as Link>⟧.ends link) (⟦<HeldLink as Link>⟧.empties link) (⟦<HeldLink as Link>⟧.given link) (⟦<HeldLink as Link>⟧.taken link) (⟦<HeldLink as Link>⟧.closed link)) all.items },
}

impl Links {
    pub(super) fn new(alloc: Global) -> Links {
        Links {
            all: Vec::new(alloc),
        }
    }

    /// These links, and one more on which these octets wait.
    pub(super) fn with(self, octets: Vec<u8>, gates: Gates) -> Result<Links, NoMemory> {
        let mut all = self.all;
        let alloc = *octets.allocator();
        let link = MemLink::new(octets, Vec::new(alloc), Vec::new(alloc), 4096);
        let Gates {
            before,
            after,
            at,
            opens,
        } = gates;
        all.push(HeldLink::new(link, before, after, at, opens))?;
        Ok(Links { all })
    }

    /// A net that hands them out, with these streams of link state.
    pub(super) fn into_net(self, streams: Links) -> MemNet<HeldLink> {
        let alloc = *self.all.allocator();
        MemNet::new(self.all, streams.all, Vec::new(alloc))
    }
}

/// A gate that is shut.
pub(super) fn shut(alloc: Global) -> Result<Arc<HeldGate>, NoMemory> {
    Ok(Arc::new(alloc, HeldGate::new(0))?)
}

/// A gate that is open.
pub(super) fn open(alloc: Global) -> Result<Arc<HeldGate>, NoMemory> {
    let gate = shut(alloc)?;
    gate.open();
    Ok(gate)
}

/// Whether the gate was opened, and not because its polls ran out.
pub(super) fn is_opened_in_time(gate: &HeldGate) -> bool {
    gate.is_open() && !gate.starved()
}
