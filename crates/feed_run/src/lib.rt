//! Feeds that are read over any source of octets, record by record or to their Z, and the platform that their records act on.
//!
//! A [`FeedRun`] is a feed whose roster was read and whose Z wasn't: its `next` reads a record, has the platform act on it and
//! returns what is put out. [`read_feed`] reads a whole feed and puts nothing out. The feed may follow others, and then the
//! numbers of records and the count of octets go on.
//!
//! A caller may rely on this: a feed ends at its Z, at its first faulty record or at the first faulty line of its roster, as
//! the octets say, where a read didn't fail; no octet after that record is read; and the platform is the one of the
//! definitions to which the records lead.
//!
//! | File | What is there |
//! |---|---|
//! | `records` | a feed record by record |
//! | `whole` | a feed read to its Z |
//!
//! ```text
//! let first = read_feed(&rt, alloc, Reader::new(alloc), 0, source)?;
//! let second = read_feed(&rt, alloc, first.reader, first.number, source)?; // Err(Status::Feed { number: 9, .. })
//! ```
#![tactic(auto)]

mod records;
mod whole;

pub use feed_format::{FeedWhy, Reader, RosterWhy, Status};
pub use records::FeedRun;
pub use whole::read_feed;
