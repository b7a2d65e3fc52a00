//! What the sessions and the viewer send to a shard.

use crate::route::Route;
use rcp_base::{Prefix, Slot};
use std::sync::Arc;

/// A message to the worker of a shard. `V` is the view of the interior network.
#[derive(Drop)]
pub enum ShardMail<V> {
    /// The slot's session is up. `generation` counts the times that its seat was claimed.
    Up {
        slot: Slot,
        generation: u64,
    },
    /// The slot's router announces a route for a prefix.
    Announce {
        slot: Slot,
        prefix: Prefix,
        route: Route,
    },
    /// The slot's router withdraws its route for a prefix.
    Withdraw {
        slot: Slot,
        prefix: Prefix,
    },
    /// The slot's session has ended.
    Down {
        slot: Slot,
    },
    /// The interior network has changed.
    View(Arc<V>),
}
