//! Laws of the model that pin it from further sides.
//!
//! Model: there is none. Each public function is a law of `rcp_model`'s definitions with an empty body. Nothing stands on this
//! crate, so that a further law proves nothing anew but itself. A reader may rely on these:
//!
//! - `edges`: which edges the interior network has, as a relation on kept LSAs and the roster;
//! - `ends`: with which NOTIFICATION a BGP session ends, and that no other is sent;
//! - `forms`: which path attributes are sent on, and with which flags, those of unrecognised types among them;
//! - `link_state`: each kept router LSA stands under its own router, and what a time and an LSA leave;
//! - `packing`: each value has one group of UPDATEs, with exactly the prefixes of its cells.
//!
//! ```text
//! ensures { (roster : RosterOf) (input : Input) (session : SessionState) → IsEndTold (answer roster input session).does }
//! ```
#![tactic(auto)]

pub mod edges;
pub mod ends;
pub mod forms;
pub mod link_state;
pub mod packing;
