//! The platform by what can be asked of it, and its shards as the parts of its server: laws on which an engine stands that
//! keeps a server for each shard and no lists in the order of arrival.
//!
//! Each law is the contract of a function with an empty body. A caller may rely on these:
//!
//! - `parts`: an event of the server is the same event on the shards that it concerns;
//! - `turns`: the turns of a record are the same, and each is its events on the shards;
//! - `links`: each shard learns of the same edges, once a record;
//! - `work`: the same prefixes are worked, shard by shard, and the same UPDATEs and counts are put out;
//! - `records`: a whole record, and the platform to which nothing happened;
//! - `answers`: what is asked of the shards is what the platform answers, and it is an assignment;
//! - `dirty`: the cells that change are those that a shard has dirty.
//!
//! ```text
//! platform_laws::parts::an_event_acts_on_its_shards();   // in a proof: its clause `one`, at the event of a call
//! ```
#![tactic(auto)]

pub mod answers;
pub mod dirty;
pub mod links;
pub mod parts;
pub mod records;
pub mod turns;
pub mod work;
