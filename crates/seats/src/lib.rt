//! The seats of the routers: what one session at a time holds for its router, and the book that hands them out.
//!
//! Model: a seat is the record of its slot, of its generation, which counts the times that it was claimed, of its senders to the
//! shards with what they put, and of its receiver of offers with what it took. A book is a list with a place for each slot:
//! the seat there, or none while a session holds it. Which mailboxes belong to a slot is named by a type, [`SeatNames`].
//!
//! A caller may rely on this: a seat that a book hands out is that of its slot, has the mailboxes with which it went in, is down at
//! every shard by the messages that it put, and has a generation above that of each `Up` among them. So no two sessions of a
//! router are up at once, and a shard knows which is which. [`SeatOut`] is made by [`Book::take`] alone, exactly where the
//! seat isn't in the book or its generation has reached its last value.
//!
//! That a seat comes back isn't promised: a session that keeps it keeps its router out.
//!
//! ```text
//! let book = SeatBook::new(alloc, seats)?;
//! // in the thread of a session
//! match book.claim(rt, slot) {
//!     Ok(mut seat) => {
//!         serve(rt, &mut seat);
//!         book.give_back(rt, seat);
//!     }
//!     Err(out) => refuse(out),
//! }
//! ```
#![tactic(auto)]

mod book;
mod names;
mod seat;
mod seat_book;

pub use book::{Book, SeatOut};
pub use names::SeatNames;
pub use seat::{Mail, Seat};
pub use seat_book::SeatBook;

#[cfg(test)]
mod tests;
