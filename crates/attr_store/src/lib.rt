//! Routes kept once: equal routes have one number, and whoever holds a route holds its number.
//!
//! Contracts see a finite map from a number that is live to its route and the count of its uses. A number is
//! live while it has a use. Two routes are equal where the octets of their path attributes and all other fields are.
//!
//! A caller may rely on this: no route has two numbers, and a number has the same route as long as it is live. So
//! to compare two routes of one store is to compare their numbers. A route goes with its last use, and its number may then be
//! given to another. A count of uses that has come to 2^32 - 1 stays there, and its number stays live for good. Only `intern` of a route that
//! isn't there takes memory, and after `NoMemory` the store is as before.
//!
//! ```text
//! let n = store.intern(route)?;      // 1 use
//! store.retain(n);                   // 2 uses
//! store.release(n);
//! store.release(n);                  // the route is gone
//! ```
#![tactic(auto)]

mod kept;
mod key;
mod store;

pub use rcp_model::RouteNo;
pub use store::AttrStore;

#[cfg(test)]
mod tests;
