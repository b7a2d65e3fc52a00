//! The run of a daemon that serves routers over BGP sessions.
//!
//! Model: what is given to a run is its words, the octets of a roster, and a net that hands out links and takes them back; what it leaves is a status and a
//! report with a line for each session.
//!
//! A caller may rely on this: each status has its cause; the roster is exactly that of the source's octets, or its first fault is answered; on Done as many
//! links were handed out as sessions were wanted, each was served as [`serve_session`](session_run::serve_session) says, the links handed back are
//! those of the report's lines, in order, and the report is exactly the text of the ends; nothing is written but the report.
//!
//! A run waits for its peers, so that it ends isn't promised.
//!
//! ```text
//! let status = run_daemon(rt, alloc, &words, &mut source, &mut sink, &mut net, &clock, &gate);
//! ```
#![tactic(auto)]

mod ends;
mod jobs;
mod running;
mod serving;

pub use daemon_jobs::TURNED;
pub use feed_format::{RosterWhy, Status};
pub use running::run_daemon;

#[cfg(test)]
mod tests;
