//! The link-state database (RFC 2328 sections 13.1, 14 and 16.1): of each router of an area the most recent router LSA,
//! and the edges that these give.
//!
//! An [`Lsdb`] means a link state, which is a map from routers to instances with the times of their installation, and
//! the latest time that `clock` was given. A caller may rely on this:
//!
//! - `install` answers which of two instances is the more recent one exactly as section 13.1 says, and keeps it. It
//!   answers `NoMemory` only for one that is to be kept, and the database is then as before.
//! - `clock` removes exactly the instances whose age has reached MaxAge.
//! - `edges` gives exactly the point-to-point links that both ends list, each with the least metric of parallel ones, and
//!   the fixed edges, in order, each once. `edges_are_two_way` says so of the links themselves. They name few routers
//!   and cost little, so that a graph takes them as they are.
//! - A database holds its own link state: the clause `kept` of `time` and `edges`, which no caller has to ask for.
//! - Databases that hold the same link state give the same answers and edges.
//!
//! ```text
//! let mut lsdb = Lsdb::new(alloc);
//! let answer = lsdb.install(lsa, 0)?;
//! let gone = lsdb.clock(1);
//! let edges = lsdb.edges(&fixed)?;
//! ```
#![tactic(auto)]

mod database;
mod instance;
mod laws;
mod links;
mod recency;

pub use database::Lsdb;
pub use laws::{edges_are_two_way, one_instance_of_each_router, one_is_more_recent};
pub use recency::Installed;

#[cfg(test)]
mod tests;
