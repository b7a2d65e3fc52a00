//! A shard at work: small networks whose outcome is known, and a run of events beside slow code that follows the definitions.
//!
//! Model: there is none. This crate has tests of `rcs_shard` alone: that its calls succeed where there is memory, and what a few of
//! them answer after one another. Nothing stands on it, so a further test proves nothing anew but itself.
#![tactic(auto)]

#[cfg(test)]
mod tests;
