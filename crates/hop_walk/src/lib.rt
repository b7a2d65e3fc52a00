//! Hops: the routers through which packets for a prefix go from a router to its egress (RFC 4271 section 9.1.2.2 e).
//!
//! The interior network forwards hop by hop, so that a packet reaches the egress of the router where it came in only where
//! each router on the way has that egress too. The hop law says that they do: at a prefix that isn't pending, every connected
//! router on any shortest path from a router to its egress chooses that egress, where no edge of cost 0 begins in the
//! partition.
//!
//! A caller may rely on this, of whatever implements [`Assigned`](rcp_model::Assigned):
//!
//! - [`walk`] answers the path from a router to its egress, and else why there is none. It names the first cause that
//!   stands: not connected, pending, no route, an edge of cost 0.
//! - [`routers_on_the_way_choose_the_egress`] is the law by itself.
//!
//! ```text
//! match walk(alloc, &platform, router, prefix) {
//!     Ok(path) => ..,                                    // [10.0.0.2, 10.0.0.1]
//!     Err(WalkError::Refused(refusal)) => ..,            // no path: pending 203.0.113.0/24
//!     Err(WalkError::NoMemory) => ..,
//! }
//! ```
#![tactic(auto)]

mod choosing;
mod laws;
mod refusal;
mod walking;
mod ways;

pub use feed_format::{WalkRefusal, WalkWhy};
pub use laws::{routers_of_a_path_are_on_the_way, routers_on_the_way_choose_the_egress};
pub use refusal::WalkError;
pub use walking::walk;

#[cfg(test)]
mod tests;
