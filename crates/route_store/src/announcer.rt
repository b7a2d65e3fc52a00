//! One announcement of a prefix.

ghost use Rattle.std.specs.Prelude.{◌≡◌};

use rcp_base::Slot;
use rcp_model::RouteNo;
use std::marker::Model;

/// A slot that announces a prefix, and the number of its route, in eight octets. Contracts see the pair of both.
#[derive(Clone, Copy, Debug, PartialEq, Eq)]
pub struct Announcer {
    slot: Slot,
    number: u32,
}

impl Model for Announcer {
    ghost use Rattle.std.specs.Prelude.{ℕ, ◌<◌, ◌-◌, ◌^◌};

    ghost Value = { ℕ × ℕ };

    ghost view = { λ a. (a.slot, a.number) };

    ghost invariant = { λ a. a.number < 2 ^ 32 - 1 };

    ghost inverse = { λ a. record { slot = a.0; number = a.1 } };
}

impl Announcer {
    /// The announcement of a route by a slot.
    pub fn new(slot: Slot, route: RouteNo) -> Announcer
        ensures { result ≡ (slot, route) }
    {
        Announcer {
            slot,
            number: route.number() as u32,
        }
    }

    /// The slot of the router that announces.
    pub fn slot(&self) -> Slot
        ensures { result ≡ self.now.0 }
    {
        self.slot
    }

    /// The number of the route that is announced.
    pub fn route(&self) -> RouteNo
        ensures { result ≡ self.now.1 }
    {
        RouteNo(self.number as usize)
    }
}
