//! Why a list of path attributes is refused.

ghost use Rattle.std.specs.Prelude.{◌≡◌, Some, None, if◌then◌else◌};
ghost use Rattle.bgp_fault.specs.declared.Fault.{Fault};
ghost use Rattle.path_attrs.specs.Refusals.{update_fault};
ghost use Rattle.path_attrs.specs.declared.refusal.AttrRefusal.TheVariants.{Fault as IsFault, NoMemory};

use bgp_fault::{Data, Fault, UPDATE_MESSAGE_ERROR};
use std::alloc::AllocError;
use thiserror::Error;

/// Why a list of path attributes is refused.
#[derive(Debug, Drop, Error)]
pub enum AttrRefusal {
    /// The first fault of the list, its spans counted in the octets that were read.
    #[error("{0}")]
    Fault(Fault),
    /// There was no room for the attributes.
    #[error("no memory")]
    NoMemory,
}

impl From<Fault> for AttrRefusal {
    ghost from_gives = { λ fault refusal. refusal ≡ IsFault fault };

    fn from(fault: Fault) -> AttrRefusal {
        AttrRefusal::Fault(fault)
    }
}

impl From<AllocError> for AttrRefusal {
    ghost from_gives = { λ _ refusal. refusal ≡ NoMemory };

    fn from(_e: AllocError) -> AttrRefusal {
        AttrRefusal::NoMemory
    }
}

/// The fault of an UPDATE that a test shows, if it does.
pub fn fault_if(shown: bool, sub: u8, extra: Data) -> Option<Fault>
    ensures { result ≡ (if shown then Some (update_fault sub extra) else None) }
{
    if shown { Some(fault(sub, extra)) } else { None }
}

/// The fault of an UPDATE.
pub fn fault(sub: u8, extra: Data) -> Fault
    ensures { result ≡ update_fault sub extra }
{
    Fault {
        code: UPDATE_MESSAGE_ERROR,
        sub,
        extra,
    }
}
