// Instances of router LSAs as they are kept.
ghost use Rattle.std.specs.Prelude.{◌≡◌};
ghost use Rattle.rcp_model.specs.LinkState.{header_at};
ghost use Rattle.lsdb.specs.Databases.{header_after};

use crate::recency::{Header, MAX_AGE};
use lsa_reader::Lsa;
use std::marker::Model;

/// An LSA and the time of its installation, in seconds.
#[derive(Debug, Drop)]
pub struct Instance {
    pub lsa: Lsa,
    pub since: u64,
}

impl Model for Instance {
    ghost use Rattle.rcp_model.specs.LinkState.{Kept};

    ghost Value = { Kept };

    ghost view = { λ i. record { lsa = i.lsa; since = i.since } };
}

impl Instance {
    /// Its header at a time: it has aged since its installation (RFC 2328 section 14).
    pub fn header_at(&self, now: u64) -> Header
        ensures { result ≡ header_at now self.now }
    {
        let elapsed = now.saturating_sub(self.since).min(u64::from(MAX_AGE)) as u16;
        header(&self.lsa, elapsed)
    }
}

/// The header of an LSA so many seconds after it came.
pub fn header(lsa: &Lsa, elapsed: u16) -> Header
    ensures { result ≡ header_after elapsed lsa.now }
{
    Header {
        sequence: lsa.sequence,
        checksum: lsa.checksum,
        age: lsa.age.saturating_add(elapsed).min(MAX_AGE),
    }
}
