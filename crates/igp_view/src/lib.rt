//! Views of the interior network, out of a stream of OSPF packets (RFC 2328 sections 13, 14 and 16.1).
//!
//! An [`IgpView`] means the link state of one area, the octets of the stream that belong to no whole packet yet, and a view of the
//! edges between routers for the members of a roster. A caller may rely on this:
//!
//! - The link state is what the router LSAs of the area's whole packets leave, each installed at the time of its piece, and the edges
//!   are those of the link state and of the roster's links.
//! - However octets that come at one time are cut into pieces, the link state is the same, and so is the place where the framing
//!   is lost (`any_cut`).
//! - Another view takes its place where edges changed, and only there: `changes` counts these, and `view` hands out the last one.
//!   Few changed edges are followed one by one, and what a member reaches at the same costs is shared with the view before; where
//!   many changed, all is searched anew.
//! - After `NoMemory` an `IgpView` is spent: each later call answers `NoMemory`.
//!
//! ```text
//! let mut igp = IgpView::new(alloc, &roster)?;
//! let got = igp.octets(&piece, now)?;
//! if igp.changes() != before {
//!     let view = igp.view()?;
//! }
//! ```
#![tactic(auto)]

mod following;
mod igp;
mod intake;
mod laws;
mod packets;
mod views;

pub use igp::{IgpGot, IgpView};
pub use laws::any_cut;

#[cfg(test)]
mod tests;
