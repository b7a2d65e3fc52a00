// Resting until a message comes.

use crate::ends::Receiver;
use std::sync::Wait;
use std::time::Duration;

impl<M> Receiver<M> {
    /// Rests until a message was put since the last rest, at most so many milliseconds. It may return before, so look for
    /// a message again afterwards.
    pub fn rest<R: Wait>(&self, rt: &R, milliseconds: u32) {
        let longest = Duration::from_millis(u64::from(milliseconds));
        self.shared.parker.park_timeout(rt, longest);
    }
}
