//! What a recorded feed means: what each record does, what is put out for it, and how the feed ends.
//!
//! Model: one function, `act`, takes the platform and a record to the platform after it and what is put out, in three stages:
//! the turns of the sessions, the link state, and the work on pending prefixes. A run is a fold of it.
//!
//! | File of `specs/` | What it says |
//! |---|---|
//! | `Platform` | the sessions of the connections, the link state, the route control server, and how they begin |
//! | `OutRecords` | messages, ends of connections, lost framing and summaries, and what of it goes to one connection |
//! | `SessionTurns` | the first stage: what a record does with the sessions, and what the server learns of it |
//! | `LinkStream`, `LinkRecords` | the second stage: the packets of the one stream of link state, and the edges that follow |
//! | `Work` | the third stage: the prefixes of a slice or a drain, the cells that change, and the packed UPDATEs for them |
//! | `Runs` | what a record does, runs of records, and the headline |
//! | `WholeFeeds` | octets as a feed: the first fault, the records before it, and the output |
//!
//! A caller may rely on this: the definitions are functions that compute. `offers` has the headline over them for all lists
//! of records: what was sent to a connected router, replayed, is what it is offered. `slices` says that a slice works the
//! least pending prefixes, one after another. There is no code here: each public function is a law with an empty body. Cases
//! whose outcome is known stand in `meaning_cases`.
//!
//! Changed cells are sent as packed UPDATEs, `packed` of `rcp_model`. The headline rests on it through one law alone: replayed
//! after any table, they give each cell its value and leave the other prefixes (`packed_updates_carry_the_cells` there).
//!
//! ```text
//! ensures platform { OnOk result (platform_in self.new ≡ (act (platform_in self.old) item.now).after) }
//! ensures output { IfOk result (λ outs. outs.items ≡ (act (platform_in self.old) item.now).out) }
//! ```
#![tactic(auto)]

pub mod offers;
pub mod slices;
