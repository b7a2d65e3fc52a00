use crate::{Difference, PartitionAnswer, agree};
use rcp_base::{Addr, NoMemory, Prefix, RouterId, Slot};
use rcp_model::{Assigned, Costs, Edge, Route};
use std::test::Fail;

mod recorded;
mod rows;

/// A roster of the router 10.0.0.1 alone, to which no one announces anything.
#[derive(Drop)]
struct Lone {
    as_number: u32,
    bgp_id: u32,
}

impl Costs for Lone {
    ghost use Rattle.std.specs.Prelude.{[], ◌∷◌};

    ghost edges = { λ _. [] };

    ghost members = { λ lone. record { router = 167772161; bgp_id = lone.bgp_id } ∷ [] };

    fn cost(&self, from: Slot, to: Slot) -> Option<u32> {
        if from.0 > 0 || to.0 > 0 {
            return None;
        }
        Some(0)
    }
}

impl Assigned for Lone {
    ghost use Rattle.std.specs.Prelude.{true, false, None};

    ghost as_number = { λ lone. lone.as_number };

    ghost connected = { λ _ _. true };

    ghost announced = { λ _ _ _. None };

    ghost given = { λ _ _ _. None };

    ghost pending = { λ _ _. false };

    fn as_number(&self) -> u32 {
        self.as_number
    }

    fn members(&self) -> u16 {
        1
    }

    fn router(&self, _slot: Slot) -> RouterId {
        RouterId(0x0a000001)
    }

    fn bgp_id(&self, _slot: Slot) -> Addr {
        Addr(self.bgp_id)
    }

    fn connected(&self, _slot: Slot) -> bool {
        true
    }

    fn announcement(&self, _slot: Slot, _p: Prefix) -> Option<&Route> {
        None
    }

    fn next_prefix(&self, _after: Option<Prefix>) -> Option<Prefix> {
        None
    }

    fn is_pending(&self, _p: Prefix) -> bool {
        false
    }

    fn table(&self, _slot: Slot, _p: Prefix) -> Option<&Route> {
        None
    }

    fn edge(&self, _place: u64) -> Option<Edge> {
        None
    }
}

/// What an answer says in short.
#[derive(Clone, Copy, Debug, PartialEq, Eq)]
enum Said {
    Same,
    As(u32, u32),
    Identity(Option<Addr>, Option<Addr>),
    Other,
}

/// What the one answer says, of the partition of 10.0.0.1.
fn answer_in(answers: &[PartitionAnswer]) -> Option<Said> {
    let [answer] = answers else {
        return None;
    };
    if answer.least != RouterId(0x0a000001) {
        return None;
    }
    match &answer.difference {
        None => Some(Said::Same),
        Some(Difference::As { first, second }) => Some(Said::As(*first, *second)),
        Some(Difference::Identity { first, second, .. }) => Some(Said::Identity(*first, *second)),
        Some(_) => Some(Said::Other),
    }
}

#[test]
fn lone_routers_are_compared(rt: HostRuntime) -> Result<(), Fail> {
    let lone = Lone {
        as_number: 65000,
        bgp_id: 1,
    };
    let rows = [
        (65000, 1, Said::Same),
        (65001, 1, Said::As(65000, 65001)),
        (65000, 2, Said::Identity(Some(Addr(1)), Some(Addr(2)))),
        (65001, 2, Said::As(65000, 65001)),
    ];
    for (as_number, bgp_id, wanted) in rows {
        let other = Lone { as_number, bgp_id };
        let answers = agree(rt.alloc(), &lone, &other)?;
        assert!(rt; answer_in(answers.as_slice()) == Some(wanted));
    }
    Ok(())
}
