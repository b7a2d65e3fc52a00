//! BGP messages (RFC 4271 section 4), read and written.
//!
//! Model: a message is the list of its octets, and a cutter is the list of the octets that came from a stream and
//! weren't handed out yet. What a message says is a function of its octets, and what is written is one of its fields.
//!
//! A caller may rely on this:
//!
//! - `first_message` is the whole message in front of octets, or the fault of the header there, which is judged as soon
//!   as its 19 octets are there. A stream is cut by it alone.
//! - `Cutter` hands out the messages of the stream's one reading, however it was cut into pieces, and then the fault of
//!   a header, which it repeats. Each octet is copied once, and no memory is taken.
//! - `read_open` and `read_update` answer what the body says exactly where it is faultless, and else its first fault;
//!   `read_update` looks at the section lengths alone, `check_prefixes` at a section of prefixes, which `next_prefix`
//!   then walks. Path attributes are read by `path_attrs`.
//! - What `write_open`, `write_update`, `write_notification` and `write_keepalive` write is exactly the octets of that
//!   message, and is read again as the same message, whatever follows it. `write_update` refuses exactly what a message
//!   of 4,096 octets has no room for. An OPEN with a hold time of 1 or 2 seconds is read as that fault.
//! - `open_message`, `update_message`, `notification_message` and `keepalive_message` give the same octets in a vector of
//!   their size.
//!
//! ```text
//! let mut cutter = Cutter::new();
//! while !piece.is_empty() {
//!     let taken = cutter.feed(piece);
//!     piece = &piece[taken..];
//!     match cutter.next() {
//!         Ok(Some(message)) if message.kind == UPDATE => .. read_update(message.body) ..
//!         Ok(_) => ..
//!         Err(fault) => .. write_notification(&fault, &[], &mut out) ..
//!     }
//! }
//! ```
#![tactic(auto)]

mod cutter;
mod framing;
mod header;
mod keepalive;
mod laws;
mod notification;
mod open;
mod put;
mod streams;
mod update;

pub use cutter::Cutter;
pub use framing::{Message, first_message};
pub use header::{
    HEADER_LEN, Header, KEEPALIVE, MARKER, MOST_OCTETS, NOTIFICATION, OPEN, UPDATE, read_header,
};
pub use keepalive::{keepalive_message, write_keepalive};
pub use laws::{
    identifier_comes_before_parameters, written_keepalive_is_read_again,
    written_notification_is_read_again, written_open_is_read_again, written_update_is_read_again,
};
pub use notification::{Notification, notification_message, read_notification, write_notification};
pub use open::{OpenBody, identifier_of, open_message, read_open, write_open};
pub use streams::any_cut;
pub use update::{Update, check_prefixes, next_prefix, read_update, update_message, write_update};

#[cfg(test)]
mod tests;
