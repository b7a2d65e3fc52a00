//! Replicas: whether two platforms have the same inputs, partition by partition, and so have given their routers the same routes.
//!
//! A partition of the interior network is alike in both where the AS numbers are equal, and its routers, their BGP Identifiers, the least
//! costs of edges between them and the routes that they announce.
//!
//! A caller may rely on this, of whatever implements [`Assigned`](rcp_model::Assigned):
//!
//! - [`agree`] answers no difference exactly where a partition is alike, and else the first difference.
//! - Where it is alike, each router of it that is connected in both was given the same octets, or none, for each prefix that is
//!   pending in neither. [`equal_inputs_give_equal_tables`] is that law by itself.
//! - [`text_of`] is the text of the answers, exactly.
//!
//! ```text
//! let answers = agree(alloc, &first, &second)?;
//! let text = text_of(alloc, answers.as_slice())?;    // partition 10.0.0.1 same
//! ```
#![tactic(auto)]

mod agreeing;
mod difference;
mod laws;
mod network;
mod partition_differences;
mod partitions;
mod routes;
mod seats;
mod text;

pub use agreeing::agree;
pub use difference::{Difference, PartitionAnswer};
pub use laws::equal_inputs_give_equal_tables;
pub use text::text_of;

#[cfg(test)]
mod tests;
