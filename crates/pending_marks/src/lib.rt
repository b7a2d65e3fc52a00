//! The prefixes that wait for a decision: which they are, how many, and the least of them.
//!
//! A [`PendingMarks`] means two finite sets: the prefixes that are opened, and those of them that are marked. A caller may rely on this:
//!
//! - `open` alone takes memory. To mark an opened prefix and to take the least marked one takes none.
//! - `mark` and `take_least` change exactly what they say, and `count`, `is_marked` and `least` are exact.
//!
//! ```text
//! let mut marks = PendingMarks::new(alloc);
//! marks.open(prefix)?;
//! marks.mark(prefix);
//! marks.take_least();                        // Some(prefix)
//! ```
#![tactic(auto)]

mod flags;
mod marks;

pub use marks::PendingMarks;

#[cfg(test)]
mod tests;
