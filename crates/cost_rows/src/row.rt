//! Rows: the costs from one router as they are handed over.

ghost use Rattle.std.specs.Prelude.{◌≡◌, ℕ, ◌<◌, AllPairs};
ghost use Rattle.rcp_base.specs.Maps.{get_at};
ghost use Rattle.rcp_model.specs.LinkState.{same_number};

use rcp_base::RouterId;
use std::marker::Model;

/// The costs from one router: a pair for each router that it reaches, by rising ID. Contracts see the list of the pairs.
#[derive(Debug, Drop)]
pub struct Row {
    pairs: Vec<(RouterId, u32)>,
}

impl Model for Row {
    ghost use Rattle.std.specs.Prelude.{ℕ, ◌<◌, List, AllPairs};

    ghost Value = { List (ℕ × ℕ) };

    ghost view = { λ row. row.pairs.items };

    ghost invariant = { λ row. AllPairs (λ (a b : ℕ × ℕ). a.0 < b.0) row.pairs.items };
}

impl Row {
    /// The row of these pairs, whose routers rise strictly.
    pub fn from_pairs(pairs: Vec<(RouterId, u32)>) -> Row
        requires { AllPairs (λ (a b : ℕ × ℕ). a.0 < b.0) pairs.items }
        ensures { result ≡ pairs.items }
    {
        Row { pairs }
    }

    /// The cost to a router, `None` where it isn't reached, found by halving.
    pub fn cost(&self, router: RouterId) -> Option<u32>
        ensures { result ≡ get_at same_number router self.now }
    {
        cost_in(self.pairs.as_slice(), router)
    }
}

/// The cost of a router among pairs whose routers rise.
fn cost_in(pairs: &[(RouterId, u32)], router: RouterId) -> Option<u32>
    requires { AllPairs (λ (a b : ℕ × ℕ). a.0 < b.0) pairs.now }
    ensures { result ≡ get_at same_number router pairs.now }
{
    let place = pairs.partition_point(|pair| pair.0 < router);
    let pair = pairs.get(place)?;
    if pair.0 == router { Some(pair.1) } else { None }
}
