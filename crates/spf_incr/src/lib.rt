//! Engines of interior costs: the least costs from the members of a roster, kept as one edge after another comes or goes
//! (RFC 2328 section 16.1).
//!
//! An engine is over the edges that it was made over or brought up to, and its costs are the least sums over all walks of them,
//! whatever the edges are: cycles of cost 0, edges from a router to itself, parallel links and links of one direction among them.
//!
//! A caller may rely on this:
//!
//! - `change` lists exactly the pairs of slot and router whose cost changed, by slot and then by router.
//! - [`PlainEngine`] and [`TreeEngine`] answer the same. The first searches from each member at each change; the second searches
//!   only from the members for which a removed edge was on a shortest path, and once for an added edge.
//! - After `NoMemory` an engine is spent, and a new one takes its place.
//!
//! ```text
//! let mut engine = TreeEngine::new(alloc, &members, &graph)?;
//! graph.add(edge)?;
//! for (slot, router) in engine.change(&graph, edge, true)? { .. }
//! let cost = engine.cost(Slot(0), router);
//! ```
#![tactic(auto)]

mod engines;
mod rows;
mod table;
mod way;

pub use cost_rows::CostEngine;
pub use engines::{PlainEngine, TreeEngine};

#[cfg(test)]
mod tests;
