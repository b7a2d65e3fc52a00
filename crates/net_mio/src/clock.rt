// The machine's clock.

/// The seconds of the system's clock that never goes back, from any start.
#[derive(Drop)]
pub struct SystemClock<'a, C> {
    clock: &'a C,
}

impl<'a, C: std::time::Clock> SystemClock<'a, C> {
    pub fn new(clock: &'a C) -> SystemClock<'a, C> {
        SystemClock { clock }
    }
}

impl<C: std::time::Clock> outside::Clock for SystemClock<'_, C> {
    ghost use Rattle.std.specs.Prelude.{true};

    ghost can_give = { λ _ _. true };

    /// The time in seconds: 0 where the system has none.
    fn now(&self) -> u64 {
        match self.clock.monotonic() {
            Ok(time) => time.as_secs(),
            Err(_) => 0,
        }
    }
}
