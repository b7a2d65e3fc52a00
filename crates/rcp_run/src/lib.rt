//! The commands of the program `rcp`, over any source and sink of octets.
//!
//! Model: a run reads words and a stream of octets, writes octets, and answers one `Status`. Its command `replay` reads a
//! recorded feed and writes what a route control platform puts out for it: the messages to its routers, the ends of
//! connections, lost framing of the link state, and summaries. The commands `tables`, `agree` and `path` read all their input,
//! and then write a text: the tables of the routers, where two feeds lead to the same tables, and the way of packets to their
//! egress. The commands `make` and `trial` read nothing: they write the generated feed of a number, and its summaries.
//!
//! A caller may rely on this: a run ends for every input, source and sink; it answers `Usage` exactly where the words
//! are those of no command, `Read` only where the source failed, and `Write` only where the sink failed. Of a source and
//! a sink whose octets are known it says more: `Done` comes only at the Z of the input, `Feed` exactly at the first faulty
//! record, `Roster` at the first faulty line of a roster, and what `replay` wrote is exactly the output of whole records,
//! but for a part of the last one's after a failed write. So the octets sent to a connected router, replayed, give for
//! each prefix that isn't pending exactly what the router is offered. The other commands write their whole text, a part of it
//! after a failed write, or nothing; of a generated feed also a part where memory was wanting.
//!
//! | File | What is there |
//! |---|---|
//! | `running` | `run` |
//! | `replay` | the loop that writes the output of each record |
//! | `report` | the commands that read all input before they write |
//! | `tables` | the text of the tables |
//! | `generated` | the commands on a generated feed |
//!
//! ```text
//! let status = run(&rt, rt.alloc(), &["replay"], &mut source, &mut sink);
//! ```
#![tactic(auto)]

mod generated;
mod replay;
mod report;
mod running;
mod tables;

pub use feed_run::{FeedWhy, RosterWhy, Status};
pub use running::run;

#[cfg(test)]
mod tests;
