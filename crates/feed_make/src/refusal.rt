//! Why no whole feed was written.

use rcp_base::NoMemory;
use thiserror::Error;

/// Why no whole feed was written.
#[derive(Clone, Copy, Debug, PartialEq, Eq, Error)]
pub enum MakeRefusal {
    /// The sink failed.
    #[error("write fault")]
    Write,
    /// There was no room for the links, or for a record.
    #[error("no memory")]
    NoMemory,
}

impl From<NoMemory> for MakeRefusal {
    ghost use Rattle.std.specs.Prelude.{◌≡◌};
    ghost use Rattle.feed_make.specs.declared.refusal.MakeRefusal.TheVariants as refusals;

    ghost from_gives = { λ _ e. e ≡ refusals.NoMemory };

    fn from(_: NoMemory) -> MakeRefusal {
        MakeRefusal::NoMemory
    }
}
