//! Records of feeds, and those that are put out.

ghost use Rattle.std.specs.Prelude.{◌≡◌, length};
ghost use Rattle.rcp_base.specs.Feed.{has_length};

use rcp_base::Kind;
use std::marker::Model;

/// A record of a feed.
#[derive(Debug, Drop)]
pub struct Record {
    pub kind: Kind,
    /// The connection's number, or 0.
    pub source: u32,
    /// At most 65,536 octets.
    pub body: Vec<u8>,
}

impl Model for Record {
    ghost use Rattle.rcp_base.specs.Feed.{FeedRecord};

    ghost Value = { FeedRecord };

    ghost view = { λ r. record { kind = r.kind; source = r.source; body = r.body.items } };
}

impl Record {
    /// Whether its body has a length that its kind's bodies may have.
    pub fn has_length(&self) -> bool
        ensures { result ≡ has_length self.now.kind (length self.now.body) }
    {
        has_length(self.kind, self.body.len())
    }
}

/// Whether a kind's bodies may have this length.
pub(crate) fn has_length(kind: Kind, len: usize) -> bool
    ensures { result ≡ has_length kind len }
{
    match kind {
        Kind::Roster | Kind::Octets | Kind::Links => true,
        Kind::Ready => len == 4,
        Kind::Time => len == 8,
        Kind::Slice => len == 6,
        Kind::Raw | Kind::Closed | Kind::Drain | Kind::Finish => len == 0,
    }
}

/// A record that is put out.
#[derive(Debug, Drop)]
pub struct Out {
    pub kind: u8,
    /// The connection's number, or 0.
    pub connection: u32,
    pub body: Vec<u8>,
}

impl Model for Out {
    ghost use Rattle.rcp_base.specs.Feed.{OutRecord};

    ghost Value = { OutRecord };

    ghost view = { λ o. record { kind = o.kind; connection = o.connection; body = o.body.items } };
}
