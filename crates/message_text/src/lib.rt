//! BGP messages and OSPF packets as text: from octets to the words that stand for them.
//!
//! What is appended is a proposal: no contract says that the words stand for the octets. A caller takes them only where reading
//! them gives the octets again. Each function appends to the text, and fails only for want of memory.
//!
//! ```text
//! push_parts::<BgpMessage>(&mut text, body)?;
//! ```
#![tactic(auto)]

mod attributes;
mod capabilities;
mod hex;
mod links;
mod lsas;
mod messages;
mod numbers;
mod packets;
mod parts;

pub use hex::{push_hex, push_pair};
pub use messages::BgpMessage;
pub use numbers::{push_address, push_number, push_number_word};
pub use packets::OspfPacket;
pub use parts::{Message, push_parts};
