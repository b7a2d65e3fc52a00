// Which of two instances of an LSA is the more recent one (RFC 2328 section 13.1).
ghost use Rattle.std.specs.Prelude.{◌≡◌};
ghost use Rattle.rcp_model.specs.LinkState.{is_more_recent, against};
ghost use Rattle.lsdb.specs.Answers.{installation_of};

use std::marker::Model;

/// The age at which an instance is no longer used, in seconds (RFC 2328 appendix B).
pub const MAX_AGE: u16 = 3600;

/// The difference of ages, in seconds, up to which two instances are the same one (RFC 2328 appendix B).
const MAX_AGE_DIFF: u16 = 900;

/// What became of an LSA.
#[derive(Clone, Copy, Debug, PartialEq, Eq)]
pub enum Installed {
    /// It is kept.
    Newer,
    /// The instance that is kept is the same one, and stays as it was.
    Same,
    /// The instance that is kept is more recent, and stays as it was.
    Older,
    /// Its age is MaxAge, and none is kept now.
    Flushed,
    /// It would be the first of its router, and there is no place.
    Dropped,
}

/// What distinguishes instances of one LSA. The age is in seconds, at most MaxAge.
#[derive(Clone, Copy, Debug, PartialEq, Eq)]
pub struct Header {
    pub sequence: i32,
    pub checksum: u16,
    pub age: u16,
}

impl Model for Header {
    ghost use Rattle.rcp_model.specs.LinkState.{LsaHeader};

    ghost Value = { LsaHeader };

    ghost view = { λ h. record { sequence = h.sequence; checksum = h.checksum; age = h.age } };

    ghost inverse = { λ h. record { sequence = h.sequence; checksum = h.checksum; age = h.age } };
}

/// Whether the first is the more recent instance.
fn is_more_recent(a: &Header, b: &Header) -> bool
    ensures { result ≡ is_more_recent a.now b.now }
{
    if a.sequence != b.sequence {
        return a.sequence > b.sequence;
    }
    if a.checksum != b.checksum {
        return a.checksum > b.checksum;
    }
    if (a.age == MAX_AGE) != (b.age == MAX_AGE) {
        return a.age == MAX_AGE;
    }
    b.age.saturating_sub(a.age) > MAX_AGE_DIFF
}

/// What becomes of an instance where another is kept.
pub fn against(new: &Header, old: &Header) -> Installed
    ensures { installation_of result ≡ against new.now old.now }
{
    if is_more_recent(old, new) {
        Installed::Older
    } else if !is_more_recent(new, old) {
        Installed::Same
    } else if new.age == MAX_AGE {
        Installed::Flushed
    } else {
        Installed::Newer
    }
}
