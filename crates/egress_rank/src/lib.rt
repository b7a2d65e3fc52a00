//! Egresses by rank: the steps of the decision that break a tie (RFC 4271 section 9.1.2.2 d to f), over the rankings of a view.
//!
//! What the filters of the decision leave of the routes to a prefix is tied, and doesn't depend on the router that chooses. The
//! egress of a router among the tied slots is the router itself where it is one of them, else the nearest by interior cost and
//! then by BGP Identifier.
//!
//! A caller may rely on this:
//!
//! - `first_in` goes down the router's ranking to the first marked slot, and `nearest_in` compares the tied slots of a list. Both
//!   answer the one egress, so they answer the same; for a few tied slots among many members `nearest_in` is the faster.
//! - `Marks` marks exactly the slots that the filters leave of a list of candidates, in the order of a sort of that list.
//! - Where the tied slots are those of a list of candidates, that egress is the decision's choice.
//! - `Marks::new` alone takes memory.
//!
//! ```text
//! let mut marks = Marks::new(alloc, members)?;
//! marks.set(&candidates);
//! let chosen = first_in(&view, slot, marks.as_slice());
//! ```
#![tactic(auto)]

mod egress;
mod laws;
mod marks;

pub use egress::{first_in, nearest_in};
pub use laws::{egress_is_the_choice, one_egress};
pub use marks::Marks;

#[cfg(test)]
mod tests;
