ghost use Rattle.std.specs.Prelude.{◌≡◌, ◌<◌, ◌-◌, ◌^◌};
ghost use Rattle.rcp_model.specs.Ribs.{route_no_of};

use std::marker::Model;

/// The number under which a store keeps a route. Each is below 2^32 - 1, so that four octets hold it and leave
/// a value for "no route". Contracts see the number.
#[derive(Clone, Copy, Debug, PartialEq, Eq, PartialOrd, Ord, Hash)]
pub struct RouteNo(pub usize);

impl Model for RouteNo {
    ghost use Rattle.std.specs.Prelude.{ℕ, ◌<◌, ◌-◌, ◌^◌};

    ghost Value = { ℕ };

    ghost view = { λ n. n.0 };

    ghost invariant = { λ n. n.0 < 2 ^ 32 - 1 };

    ghost inverse = { λ n. record { 0 = n } };
}

impl RouteNo {
    /// The number as that of a route, None exactly where it is 2^32 - 1 or more.
    pub fn new(number: usize) -> Option<RouteNo>
        ensures { result ≡ route_no_of number }
    {
        if number < u32::MAX as usize {
            Some(RouteNo(number))
        } else {
            None
        }
    }

    /// The number.
    pub fn number(self) -> usize
        ensures value { result ≡ self }
        ensures small { result < 2 ^ 32 - 1 }
    {
        self.0
    }
}
