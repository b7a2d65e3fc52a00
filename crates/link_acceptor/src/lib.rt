//! The acceptor of a daemon: it hands the BGP links and the streams of link state that come to those who serve them.
//!
//! Model: a net counts the BGP links that it hands out and its faults; an acceptor reports how many of these links it handed on, and whether the net failed.
//!
//! A caller may rely on this: the first BGP link goes to the first queue, the second to the second, and so on, each at most once; a link in a queue is as the net handed it out;
//! the count of links that the acceptor reports is exactly by how much the net's count rose; it reports a fault only where the net failed. A link that finds no room comes back.
//!
//! That a link ever comes isn't promised, nor what a queue delivers.
//!
//! ```text
//! let accepting = accept(rt, &mut net, &links, &streams, &stop);
//! ```
#![tactic(auto)]

mod acceptor;
mod fresh_link;
mod link_queue;

pub use acceptor::{Accepting, accept};
pub use fresh_link::FreshLink;
pub use link_queue::LinkQueue;

#[cfg(test)]
mod tests;
