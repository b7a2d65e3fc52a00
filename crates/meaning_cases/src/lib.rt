//! The definitions at work: small networks, sessions, contests between routes and whole feeds whose outcome is known.
//!
//! Model: there is none. Each public function is a case with an empty body, and its contract is an equation that the check
//! proves by computing. The octets on either side are written out by hand, and not by the definitions that are tried.
//!
//! A reader may rely on this: a reading of the definitions that is wrong in one of these cases is refused. Nothing stands on
//! this crate, so a further case proves nothing anew but itself.
//!
//! - `readings`: contests between a few routes in which a wrong reading of the decision would give another outcome: cost
//!   before identifier, MULTI_EXIT_DISC within one AS, partitions, and no route offered back to its router.
//! - `session_cases`: how sessions open, end and claim seats, how their timers run, and what UPDATEs bring.
//! - `fault_cases`: each further fault of a header, an OPEN and an UPDATE with its NOTIFICATION, and each message that a state
//!   doesn't take.
//! - `link_state_cases`: what packets bring, where framing is lost, and which instance of an LSA is kept how long.
//! - `instances`: all that is put out for lists of records over networks of three or four routers.
//! - `link_state_feeds`: the same with link state, lost framing and slices of work.
//! - `packed_feeds`: feeds in which several prefixes change at once, and which UPDATEs they share.
//! - `pending_feeds`: feeds that show wrong readings of what is pending, and of what a slice works.
//! - `feeds`: how feeds of octets end, by their Z or by a fault.
//!
//! ```text
//! ensures { all_output (fresh linked) tie ≡ tie_output }
//! ```
#![tactic(auto)]

pub mod fault_cases;
pub mod feeds;
pub mod instances;
pub mod link_state_cases;
pub mod link_state_feeds;
pub mod packed_feeds;
pub mod pending_feeds;
pub mod readings;
pub mod session_cases;
