//! Costs in four octets each, as rows of them are kept.

ghost use Rattle.std.specs.Prelude.{◌≡◌, ◌<◌, ◌-◌, ◌^◌, IfSome};

use std::marker::Model;

/// Stands for no cost. Costs are lower, since a graph has at most 2,560 routers and an edge costs at most 65,535.
const NO_COST: u32 = u32::MAX;

/// A cost, or none, in four octets. Contracts see the cost or none.
#[derive(Clone, Copy, Debug)]
pub struct PackedCost {
    number: u32,
}

impl Model for PackedCost {
    ghost use Rattle.std.specs.Prelude.{ℕ, Option};
    ghost use Rattle.cost_rows.specs.Packed.{unpacked, packed, packed-unpacked};

    ghost Value = { Option ℕ };

    ghost view = { λ cost. unpacked cost.number };

    ghost inverse = { λ cost. record { number = packed cost } };

    ghost inverse_ok = { λ cost _. packed-unpacked (λ (number : ℕ). record { number = number }) cost.number };
}

impl PackedCost {
    /// A cost below 2^32 - 1, or none.
    pub fn new(cost: Option<u32>) -> PackedCost
        requires { IfSome cost (λ n. n < 2 ^ 32 - 1) }
        ensures { result ≡ cost }
    {
        PackedCost {
            number: cost.unwrap_or(NO_COST),
        }
    }

    /// The cost or none.
    pub fn get(self) -> Option<u32>
        ensures { result ≡ self }
    {
        if self.number == NO_COST {
            None
        } else {
            Some(self.number)
        }
    }
}
