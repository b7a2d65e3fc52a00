//! A roster that is read from a source.
//!
//! Model: a source gives octets; what is read of them is the roster that they spell, or their first fault.
//!
//! A caller may rely on this: all octets of the source up to its end are the text; the roster or the fault is exactly that of the text, and `TooMany` at line 1
//! exactly where it has more than 65,536 octets; a failed read is answered only where the source failed.
//!
//! ```text
//! let roster = read_roster(alloc, &mut source)?;
//! ```
#![tactic(auto)]

mod reading;

pub use reading::read_roster;

#[cfg(test)]
mod tests;
