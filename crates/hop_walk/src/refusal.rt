//! Why there is no path.

ghost use Rattle.std.specs.Prelude.{◌≡◌};
ghost use Rattle.hop_walk.specs.declared.refusal.WalkError.TheVariants as error;

use feed_format::WalkRefusal;
use rcp_base::NoMemory;
use thiserror::Error;

/// Why there is no path.
#[derive(Clone, Copy, Debug, PartialEq, Eq, Error)]
pub enum WalkError {
    /// The network has none to answer.
    #[error("{0}")]
    Refused(WalkRefusal),
    /// No memory was found.
    #[error("no memory")]
    NoMemory,
}

impl From<NoMemory> for WalkError {
    ghost from_gives = { λ _ e. e ≡ error.NoMemory };

    fn from(_e: NoMemory) -> WalkError {
        WalkError::NoMemory
    }
}
