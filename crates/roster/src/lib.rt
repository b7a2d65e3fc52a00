//! The roster: the routers that the platform speaks for, and the settings of its sessions, read from a text.
//!
//! A text has a line for each setting, each router and each link, in any order, but that a link's routers stand above
//! it. Empty lines and those that begin with `#` are skipped, and counted. Contracts see a [`Roster`] as the record of
//! the definitions: the settings, the list of the members, and the list of the links.
//!
//! A caller may rely on this: [`read`] gives exactly the roster of the text, and else exactly its first faulty line,
//! with the first check that fails there. It takes memory only for the routers and the links, and answers `NoMemory` only
//! at a faultless line of one. Each getter gives exactly that part of the roster. A look-up by router ID or
//! BGP Identifier doesn't walk the list, and so a text is read in a time that grows with its length alone.
//!
//! ```text
//! let roster = read(alloc, b"as 65000\nid 10.0.0.254\nshards 2\nhold 90\narea 0.0.0.0\nrouter 10.0.0.1 10.0.0.1\n")?;
//! // roster.slot_of(RouterId(0x0a000001)) is Some(Slot(0))
//! // of b"as 65000\nfoo" it is RosterRefusal::Fault { line: 2, why: RosterWhy::Word }
//! ```
#![tactic(auto)]

mod draft;
mod lines;
mod members;
mod reading;
mod refusal;
mod rosters;
mod words;

pub use rcp_base::{Member, RosterWhy};
pub use reading::read;
pub use refusal::{RosterRefusal, number_of_fault};
pub use rosters::Roster;

#[cfg(test)]
mod tests;
