//! Why a text is no roster.

ghost use Rattle.std.specs.Prelude.{◌≡◌};
ghost use Rattle.roster.specs.declared.refusal.Stop.TheVariants as stop;
ghost use Rattle.roster.specs.Faults.{number_of_fault};

use rcp_base::{NoMemory, RosterWhy};
use thiserror::Error;

/// Why no roster is read.
#[derive(Clone, Copy, Debug, PartialEq, Eq, Error)]
pub enum RosterRefusal {
    /// The line of this number, counted from 1 with the skipped ones, is the first faulty one. A setting that is absent
    /// is a fault of the line after the last.
    #[error("roster line {line}: {why}")]
    Fault { line: u32, why: RosterWhy },
    /// No memory was found for a router or a link.
    #[error("no memory")]
    NoMemory,
}

/// The number of a fault: 1 to 6, in the order of the variants.
pub fn number_of_fault(why: RosterWhy) -> u8
    ensures { result ≡ number_of_fault why }
{
    why as u8
}

/// Why a line isn't taken.
#[derive(Clone, Copy, Debug, PartialEq, Eq)]
pub enum Stop {
    Fault(RosterWhy),
    NoMemory,
}
