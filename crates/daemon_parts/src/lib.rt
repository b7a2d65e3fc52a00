//! The mailboxes, the seats' ends and the workers of a daemon, made for a roster.
//!
//! Model: a mesh is a list of mailboxes that the same senders put to; the parts of a daemon are those of two meshes, one to the shards and one to the routers.
//!
//! A caller may rely on this: each sender of a mesh has an end at each mailbox, in the order of the mailboxes, each new and with the sender's number; a seat's ends have
//! its slot as number, and nothing was put by them; there is a worker for each shard, in the order of shards, and a seat's ends for each slot.
//!
//! ```text
//! let parts = Parts::new(rt, alloc, &roster)?;
//! ```
#![tactic(auto)]

mod mesh;
mod parts;
mod rows;

pub use mesh::{Mesh, make_mesh};
pub use parts::{Parts, SeatEnds};
pub use rows::push_at;
