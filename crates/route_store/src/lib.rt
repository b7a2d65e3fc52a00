//! The announcements that routers have made: which slot announces which prefix, and by which route.
//!
//! Contracts see a finite map from prefix and slot to the number of a route.
//!
//! A caller may rely on this: `set`, `unset`, `take` and `drop_all` change exactly what they say, and their bools say whether the map
//! changed. `announcers` gives the announcements of one prefix side by side, by rising slot, each exactly an entry of the map.
//! `next_of`, `take_first` and `drop_all` go over the prefixes of their slot alone. Only `new`, `set` and `replace` take
//! memory, and after `NoMemory` the map is as before.
//!
//! ```text
//! store.set(Slot(1), p, n)?;                 // true: p is announced by slot 1
//! store.announcers(p);                       // [(slot 1, n)]
//! while let Some((p, n)) = store.take_first(Slot(1)) {
//!     routes.release(n);                     // the slot is down
//! }
//! ```
#![tactic(auto)]

mod announcer;
mod row;
mod rows;
mod seats;
mod store;

pub use announcer::Announcer;
pub use rcp_model::RouteNo;
pub use store::RouteStore;

#[cfg(test)]
mod tests;
