//! Worked rows on a platform: records of feeds, what is put out for them, and what the platform answers in between.
//!
//! Model: there is none, and no public call. What is put out for a record is proved where the platform stands. These rows show that the
//! platform comes to its answers at all with ample memory, and that the answers are those of the RFCs in cases worked by hand. Nothing
//! stands on this crate, so a further row proves nothing anew but itself.
//!
//! | File | What is tried |
//! |---|---|
//! | `decisions` | which route each router is given |
//! | `link_state` | costs by LSAs, and lost framing |
//! | `sessions` | sessions that open, expire, are refused and fall |
//! | `work` | slices of the pending work, and shared UPDATEs |
//! | `rows` | how a row is run |
//! | `octets` | rosters, messages and LSAs |
#![tactic(auto)]

#[cfg(test)]
mod decisions;
#[cfg(test)]
mod link_state;
#[cfg(test)]
mod octets;
#[cfg(test)]
mod rows;
#[cfg(test)]
mod sessions;
#[cfg(test)]
mod work;
