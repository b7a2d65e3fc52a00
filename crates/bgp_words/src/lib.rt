//! BGP messages as words (RFC 4271 section 4): from the words of a part of a line to the octets of its message.
//!
//! A caller may rely on this: [`bgp_part`] appends exactly the octets that the grammar of `specs/` gives for the words, each
//! length and count computed, or answers the fault of the first faulty word. Path attributes, capabilities and prefixes also
//! take octets in hexadecimal, so each message that fits its length can be written, a malformed one too.
//!
//! ```text
//! let rest = bgp_part(b"update origin=igp path=65001 next-hop=10.0.0.1 nlri=203.0.113.0/24", &mut octets)?;
//! ```
#![tactic(auto)]

mod attribute_values;
mod attributes;
mod bgp;
mod capabilities;

pub use bgp::bgp_part;
