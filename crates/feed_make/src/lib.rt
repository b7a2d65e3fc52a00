//! The generated feed: a feed of any number, for trials of a platform under load.
//!
//! It is drawn from its number by a linear congruence. It has 400 routers, each with a session, in a ring of links and 500 links
//! more; 400 groups of 50 prefixes, each announced by three routers; the work of eight shards in slices and at once; ten links
//! whose costs change; and three sessions that end.
//!
//! A caller may rely on this: [`make`] writes exactly the octets of that feed, one record after another, and takes memory for
//! the links and for one record at a time alone, however far it is. Where it fails it has written a front of them, and where the
//! sink failed not all of them. That the feed has no fault is the law of `make_laws`, a crate above.
//!
//! ```text
//! make(alloc, 7, &mut sink)?;   // 2,460 records
//! ```
#![tactic(auto)]

mod draws;
mod links;
mod lsas;
mod making;
mod network;
mod records;
mod refusal;
mod roster;
mod routes;
mod sessions;

pub use making::make;
pub use refusal::MakeRefusal;

#[cfg(test)]
mod tests;
