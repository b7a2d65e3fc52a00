use crate::{WalkError, WalkWhy, walk};
use rcp_base::{Addr, Prefix, RouterId, Slot};
use rcp_model::{Assigned, Costs, Edge, Route};
use std::test::Fail;

mod pair;

/// A roster of one router, to which no one announces anything.
#[derive(Drop)]
struct Lone {
    connected: bool,
    pending: bool,
}

impl Costs for Lone {
    ghost use Rattle.std.specs.Prelude.{[], ◌∷◌};

    ghost edges = { λ _. [] };

    ghost members = { λ _. record { router = 1; bgp_id = 1 } ∷ [] };

    fn cost(&self, from: Slot, to: Slot) -> Option<u32> {
        if from.0 > 0 || to.0 > 0 {
            return None;
        }
        Some(0)
    }
}

impl Assigned for Lone {
    ghost use Rattle.std.specs.Prelude.{None};

    ghost as_number = { λ _. 65000 };

    ghost connected = { λ lone _. lone.connected };

    ghost announced = { λ _ _ _. None };

    ghost given = { λ _ _ _. None };

    ghost pending = { λ lone _. lone.pending };

    fn as_number(&self) -> u32 {
        65000
    }

    fn members(&self) -> u16 {
        1
    }

    fn router(&self, _slot: Slot) -> RouterId {
        RouterId(1)
    }

    fn bgp_id(&self, _slot: Slot) -> Addr {
        Addr(1)
    }

    fn connected(&self, _slot: Slot) -> bool {
        self.connected
    }

    fn announcement(&self, _slot: Slot, _p: Prefix) -> Option<&Route> {
        None
    }

    fn next_prefix(&self, _after: Option<Prefix>) -> Option<Prefix> {
        None
    }

    fn is_pending(&self, _p: Prefix) -> bool {
        self.pending
    }

    fn table(&self, _slot: Slot, _p: Prefix) -> Option<&Route> {
        None
    }

    fn edge(&self, _place: u64) -> Option<Edge> {
        None
    }
}

/// Why there is no path, where that is the error.
fn cause_in(error: WalkError) -> Option<WalkWhy> {
    match error {
        WalkError::Refused(refusal) => Some(refusal.why),
        WalkError::NoMemory => None,
    }
}

/// Why there is no path, where that is the answer.
fn cause_of(answer: Result<Vec<RouterId>, WalkError>) -> Option<WalkWhy> {
    match answer {
        Ok(_path) => None,
        Err(error) => cause_in(error),
    }
}

#[test]
fn first_cause_is_named(rt: HostRuntime) -> Result<(), Fail> {
    let Some(prefix) = Prefix::new(0xcb007100, 24) else {
        return Ok(());
    };
    let missing = WalkWhy::NotConnected {
        router: RouterId(2),
    };
    let down = WalkWhy::NotConnected {
        router: RouterId(1),
    };
    let rows = [
        (true, true, 2, missing),
        (false, true, 1, down),
        (true, true, 1, WalkWhy::Pending { prefix }),
        (true, false, 1, WalkWhy::NoRoute),
    ];
    for (connected, pending, router, why) in rows {
        let lone = Lone { connected, pending };
        let answer = walk(rt.alloc(), &lone, RouterId(router), prefix);
        assert!(rt; cause_of(answer) == Some(why));
    }
    Ok(())
}
