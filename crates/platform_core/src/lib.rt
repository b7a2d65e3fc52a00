//! The platform over its shards: the sessions of the routers, the view of the interior network, and the route control server.
//!
//! A [`Platform`] means the platform of the definitions, by what can be asked of it. Its `step` does what they say of a record, in three
//! stages: the turns of the sessions, the link state, and the work on pending prefixes.
//!
//! | Record | What is done |
//! |---|---|
//! | E, U | a session is opened; that of an established router is closed at once where its seat is taken |
//! | B, X | octets come to the session of the connection, or it ends |
//! | T | the time comes to each session, and then to the link state |
//! | L | octets of the link-state stream: the shards learn of the edges, once, and only where they changed |
//! | W | the least pending prefixes of a shard are worked |
//! | D | all pending prefixes are worked, and a summary follows |
//!
//! A caller may rely on this:
//!
//! - What is put out for a record, and the platform after it, are exactly those of the definitions.
//! - What the platform answers is an assignment, by the law of `Assigned`.
//! - After `NoMemory` the platform is spent: each later `step` answers `NoMemory` and changes nothing.
//!
//! ```text
//! let mut platform = Platform::new(alloc, roster)?;
//! if platform.check(&item).is_none() {
//!     for out in platform.step(&item)? { .. }
//! }
//! ```
#![tactic(auto)]

mod assigned;
mod carrying;
mod conditions;
mod connections;
mod links;
mod output;
mod platform;
mod sessions;
mod turns;
mod work;

pub use platform::Platform;
