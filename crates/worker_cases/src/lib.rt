//! Workers at work: a shard's worker on its mailboxes, in one thread and beside other threads.
//!
//! Model: there is none. This crate has tests alone, of what no contract of `shard_worker` says: that its calls succeed where there
//! is memory, what a few turns answer, and that a worker goes on while another is held at the gate. Nothing stands on this
//! crate, so a further test proves nothing anew but itself.
#![tactic(auto)]

#[cfg(test)]
mod tests;
