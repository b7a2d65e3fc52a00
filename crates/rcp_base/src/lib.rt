//! The names that every crate of the platform speaks of: addresses, router IDs, slots and prefixes, with
//! their octets (RFC 4271 section 4.3) and their texts, and the answer for want of memory.
//!
//! Contracts see a [`Prefix`] as its address and its length, a text or octets as a list of numbers.
//!
//! A caller may rely on this: a prefix has no bit set after its length. What is read from octets or a text
//! is exactly what the grammars of `specs/` give, None exactly where they give nothing. What is written is
//! read again as the same value, octets also where others follow. No call here takes memory or fails.
//!
//! ```text
//! let p = read_prefix(b"203.0.113.5/24")?;
//! // p.addr() is 203.0.113.0 and p.len() is 24; its octets are 18 cb 00 71
//! ```
#![tactic(auto)]

mod kinds;
mod names;
mod no_memory;
mod prefix;
mod text;

pub use kinds::{FeedWhy, Kind, RosterWhy};
pub use names::{Addr, Edge, Member, RouterId, Slot};
pub use no_memory::NoMemory;
pub use prefix::{Prefix, before_is_less, octets_are_read_again, octets_tell_the_prefix, shard_of};
pub use text::{
    read_addr, read_number, read_prefix, texts_are_read_again, write_addr, write_prefix,
};

#[cfg(test)]
mod tests;
