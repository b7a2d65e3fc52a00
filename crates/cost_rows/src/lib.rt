//! Interior costs: a graph of the links between routers, the least costs over it, and views of the costs between the
//! members of a roster (RFC 2328 section 16.1).
//!
//! A [`Graph`] means the list of its edges, by `from`, `to` and `cost`, each once. A [`View`] means its edges and its
//! members. A cost is the least sum over all walks of edges, whatever the edges are: cycles of cost 0, edges from a
//! router to itself, parallel links and links of one direction among them.
//!
//! A caller may rely on this:
//!
//! - `costs` gives exactly the routers that are reached, by rising ID, each with that least sum.
//! - A `View` can't have a wrong cost or ranking: what it answers follows from its edges and members alone. A decision that asks
//!   for many costs pays two steps for each, and `ranked` has the members that are reached, the nearest first.
//! - `View::renew` makes the view of another graph from rows of the costs that changed, and shares what stayed.
//! - A [`CostEngine`] finds which costs change as edges come and go. This crate has the contract of engines, and no engine.
//! - Costs fit 32 bits, since a graph has at most 2,560 routers and an edge costs at most 65,535.
//!
//! ```text
//! let mut graph = Graph::new(alloc)?;
//! graph.add(Edge { from: a, to: b, cost: 10 })?;
//! let view = View::build(alloc, &members, graph)?;
//! let cost = view.cost(Slot(0), Slot(1));
//! ```
#![tactic(auto)]

mod engine;
mod graph;
mod names;
mod packed;
mod places;
mod reach;
mod reaches;
mod row;
mod search;
mod view;

pub use engine::CostEngine;
pub use graph::Graph;
pub use names::{names_of, place_of};
pub use packed::PackedCost;
pub use places::{Places, places_in};
pub use row::Row;
pub use search::{costs, least_costs, least_costs_by, pairs};
pub use view::View;

#[cfg(test)]
mod tests;
