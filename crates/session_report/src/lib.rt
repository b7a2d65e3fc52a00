//! The report of a daemon: a line for each session that it served.
//!
//! Model: the ends of sessions are a list, in the order in which their links were accepted; the report is a list of octets.
//!
//! A caller may rely on this: the report has exactly one line for each end. The lines stand by the place of the router in the roster, those of no
//! router last; those of one router stand in the order of the ends.
//!
//! ```text
//! session 10.0.0.1 generation 1 peer-closed messages 2 updates 0
//! session 10.0.0.1 generation 0 seat-out messages 1 updates 0
//! session unknown generation 0 fault 2/3 messages 0 updates 0
//! ```
#![tactic(auto)]

mod report;

pub use report::{place_in, report_text};

#[cfg(test)]
mod tests;
