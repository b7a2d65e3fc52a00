//! The decision process of BGP (RFC 4271 section 9.1): which of the routes to a prefix a router chooses.
//!
//! A route takes part where it can be used and its next hop can be reached (section 9.1.2): the local AS isn't in its AS_PATH, its
//! attributes leave room for a prefix in an UPDATE, and there is an interior cost from the choosing router to the one that announced
//! it. The caller lists these routes alone. Each step then goes over what the one above it left:
//!
//! 1. the highest degree of preference, which is LOCAL_PREF (section 9.1.1);
//! 2. the least number of ASes in AS_PATH (section 9.1.2.2 a);
//! 3. the lowest ORIGIN: IGP, then EGP, then INCOMPLETE (b);
//! 4. the lowest MULTI_EXIT_DISC among the routes of one neighbouring AS (c).
//!
//! What these four filters leave is tied, and the tie is broken so:
//!
//! 5. the router's own route, learned from outside, goes before those that it hears from inside (d);
//! 6. the lowest interior cost to the router that announced the route (e);
//! 7. the lowest BGP Identifier of that router (f).
//!
//! No two routers have one identifier, so that a comparison of peer addresses (g) never comes.
//!
//! A list of candidates means the list of what is compared of them. `in_tied` is exactly what the four filters of
//! the definition leave, and `choose` is exactly the definition's choice, for any list and by any costs. Neither takes
//! memory.
//!
//! ```text
//! let list = [Candidate::of(first, first_id, &route), Candidate::of(second, second_id, &other)];
//! let chosen = choose(slot, &list, &view);
//! ```
#![tactic(auto)]

mod candidate;
mod choosing;
mod steps;

pub use candidate::Candidate;
pub use choosing::{choose, in_tied};
pub use steps::goes_before;

#[cfg(test)]
mod tests;
