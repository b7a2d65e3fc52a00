//! Laws of the meaning of a feed, above the folds that compute it.
//!
//! Model: there is none. Each public function is a law of the definitions of `rcp_base` and `feed_meaning` with an empty body,
//! and its statement stands in `specs/`. Nothing stands on this crate, so that a further law proves nothing anew but itself. A
//! reader may rely on these:
//!
//! - `readings`: octets are a feed's records one after another, and then what is left; the last record is Z exactly where there
//!   is no fault; and what octets come to as a feed, by the roster of the first record;
//! - `cuts`: it makes no difference how octets that come at one time are cut into records, on a connection or in the stream of
//!   link state, but for the pending prefixes in the latter;
//! - `runs`: the headline for every feed, without further premises; records of no open connection; the order of
//!   connections and of what is put out;
//! - `rosters`: each roster has one canonical text, which is read as that roster.
//!
//! ```text
//! ensures { (roster : RosterOf) → IsRoster roster → roster_of (roster_text roster) ≡ Ok roster }
//! ```
#![tactic(auto)]

pub mod cuts;
pub mod readings;
pub mod rosters;
pub mod runs;
