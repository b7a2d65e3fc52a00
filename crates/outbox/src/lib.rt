//! An outbox: the messages that wait for a link, which are written to it in order and piece by piece.
//!
//! Model: an outbox is the list of the messages that wait, how many octets of the first one are written, how many of them there are
//! up to the last UPDATE, how many UPDATEs were wholly written, and whether the link has failed. A link is the record of the
//! octets that it gave and took and of its counts ([`Wired`]).
//!
//! A caller may rely on this: the link takes exactly the octets of the messages in their order, none twice and none left out, however
//! few it takes at once; a message leaves the outbox exactly when its last octet is written; writing stops only where nothing waits,
//! where a write failed, or where the link took nothing. After a failure nothing more is written, so that the stream isn't torn.
//! Where there is no memory for messages, none of them waits.
//!
//! That a link ever takes an octet isn't promised.
//!
//! ```text
//! out.push(messages)?;
//! out.write_to(rt, &mut link);
//! if out.has_failed() {
//!     return Err(LinkFault);
//! }
//! ```
#![tactic(auto)]

mod waiting;
mod wired;

pub use waiting::Outbox;
pub use wired::Wired;

#[cfg(test)]
mod tests;
