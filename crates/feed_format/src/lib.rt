//! Records of feeds and of what is put out, and how a run of a program ends.
//!
//! A record is a kind in one octet, a source and a length in four octets each, and a body. Contracts see a [`Record`]
//! and an [`Out`] as the record of their fields, with the body as its list, and a [`Reader`] as what it remembers of
//! the records before: their number and octets, the connections, the latest time, and whether the feed has ended.
//!
//! A caller may rely on this: [`Reader::next`] gives exactly the records of the feed that stands in front of the
//! octets, one at a time, and else exactly its first fault in the order of the checks, at the number of the record; a
//! read fault only where the source failed. Memory is wanted only for a body after a faultless header, or for the number
//! of a new connection after a faultless record. It takes no octet after a record. What [`write_out`] wrote is read again
//! as that record.
//!
//! ```text
//! let mut reader = Reader::new(alloc);
//! let roster = reader.next(&mut source)?; // Kind::Roster, or FeedRefusal::Feed { number: 1, why: NoRoster }
//! ```
#![tactic(auto)]

mod laws;
mod reader;
mod record;
mod status;
mod taking;
mod writing;

pub use laws::records_are_read_again;
pub use rcp_base::{FeedWhy, Kind, RosterWhy};
pub use reader::{FeedRefusal, Reader};
pub use record::{Out, Record};
pub use status::{Status, WalkRefusal, WalkWhy, number_of_fault};
pub use writing::write_out;

#[cfg(test)]
mod tests;
