// What time it is.
ghost use Rattle.std.specs.Prelude.{◌≡◌, ◌<◌, ℕ, Bool, IsTrue, length};
ghost use Rattle.std.specs.List.{list_any};

use std::sync::atomic::{AtomicUsize, Ordering};

/// A clock that any thread may look at. No clause says that it never falls.
pub trait Clock {
    /// The test of the times that the clock can give.
    ghost can_give: { Self → ℕ → Bool };

    /// The time in seconds.
    fn now(&self) -> u64
        ensures { IsTrue (can_give self.now result) };
}

/// A clock that gives the times of a list one after another, and then stays at the last one.
#[derive(Drop)]
pub struct MemClock {
    times: Vec<u64>,
    place: AtomicUsize,
    ghost some_time: { 0 < length times.items },
}

impl MemClock {
    /// A clock of these times, of which there is at least one.
    pub fn new(times: Vec<u64>) -> MemClock
        requires { 0 < length times.items }
        ensures { result.times ≡ times }
    {
        MemClock {
            times,
            place: AtomicUsize::new(0),
        }
    }
}

impl Clock for MemClock {
    ghost use Rattle.std.specs.List.{list_any};
    ghost use Rattle.std.specs.Prelude.{◌==◌};

    ghost can_give = { λ clock time. list_any (λ given. given == time) clock.times.items };

    fn now(&self) -> u64 {
        let last = self.times.len() - 1;
        let step = |place: usize| if place < last { Some(place + 1) } else { None };
        let place = match self
            .place
            .fetch_update(Ordering::SeqCst, Ordering::SeqCst, step)
        {
            Ok(place) | Err(place) => place.min(last),
        };
        self.times[place]
    }
}
