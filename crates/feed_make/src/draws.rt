//! The numbers that a feed is drawn from.

ghost use Rattle.std.specs.Prelude.{◌≡◌, ◌+◌, ◌-◌, ◌<◌, ◌^◌};
ghost use Rattle.feed_make.specs.Draws.{draw};

use std::marker::Model;

/// A linear congruence modulo 2^64. Contracts see the number that it began with, and how many numbers were drawn.
#[derive(Debug, Drop)]
pub struct Draws {
    number: u32,
    drawn: u32,
    state: u64,
}

impl Model for Draws {
    ghost use Rattle.std.specs.Prelude.{◌≡◌};
    ghost use Rattle.feed_make.specs.Draws.{DrawsOf, state_after};

    ghost Value = { DrawsOf };

    ghost view = { λ d. record { number = d.number; drawn = d.drawn } };

    ghost invariant = { λ d. d.state ≡ state_after d.number d.drawn };
}

impl Draws {
    /// The draws of a feed, none of which was made.
    pub fn new(number: u32) -> Draws
        ensures { result ≡ record { number = number; drawn = 0 } }
    {
        Draws {
            number,
            drawn: 0,
            state: u64::from(number),
        }
    }

    /// The number of the feed.
    pub fn number(&self) -> u32
        ensures { result ≡ self.now.number }
    {
        self.number
    }

    /// The next number, from 0 to below the given one.
    pub fn draw(&mut self, below: u16) -> u16
        requires some { 0 < below }
        requires few { self.old.drawn < 2 ^ 32 - 1 }
        ensures value { result ≡ draw self.old.number self.old.drawn below }
        ensures below { result < below }
        ensures after { self.new ≡ record self.old { drawn = self.old.drawn + 1 } }
    {
        self.state = self
            .state
            .wrapping_mul(6_364_136_223_846_793_005)
            .wrapping_add(1_442_695_040_888_963_407);
        self.drawn += 1;
        ((self.state >> 32) % u64::from(below)) as u16
    }
}
