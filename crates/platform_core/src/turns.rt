//! What a session does at a record, and what comes of it: one turn, whatever came.

ghost use Rattle.std.specs.Prelude.{◌≡◌, false, []};

use rcp_base::Slot;
use session_core::Actions;

/// What the session of a connection does at a record, and the seat that it holds meanwhile.
#[derive(Drop)]
pub struct Turn {
    pub number: u32,
    pub seat: Option<Slot>,
    pub actions: Actions,
}

impl Turn {
    ghost use Rattle.platform_core.specs.Turns.{events_in, output_in};

    /// Whether anything is done.
    pub fn does_something(&self) -> bool
        ensures events { result ≡ false → events_in self.now ≡ [] }
        ensures output { result ≡ false → output_in self.now ≡ [] }
    {
        !self.actions.send.is_empty()
            || !self.actions.events.is_empty()
            || self.actions.closed.is_some()
    }
}
