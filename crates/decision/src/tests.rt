use crate::{Candidate, choose, in_tied};
use rcp_base::{Addr, Slot};
use rcp_model::Costs;

/// A network without routers, in which no one is reached.
struct Unlinked;

impl Costs for Unlinked {
    ghost use Rattle.std.specs.Prelude.{[]};

    ghost edges = { λ _. [] };

    ghost members = { λ _. [] };

    fn cost(&self, _from: Slot, _to: Slot) -> Option<u32> {
        None
    }
}

/// The route of a slot, IGP by one AS, with preference 100.
fn route(slot: u16, neighbour: u32, med: u32) -> Candidate {
    Candidate {
        slot: Slot(slot),
        id: Addr(slot as u32),
        pref: 100,
        hops: 1,
        origin: 0,
        neighbour,
        med,
    }
}

/// Which of three candidates are tied.
fn tied(list: &[Candidate; 3]) -> [bool; 3] {
    [in_tied(list, 0), in_tied(list, 1), in_tied(list, 2)]
}

#[test]
fn each_filter_goes_over_what_the_one_above_it_left(rt: HostRuntime) {
    let low = Candidate {
        pref: 99,
        hops: 0,
        ..route(0, 65001, 0)
    };
    let long = Candidate {
        hops: 2,
        origin: 0,
        ..route(1, 65001, 0)
    };
    let plain = route(2, 65001, 10);
    let incomplete = Candidate {
        origin: 2,
        ..route(3, 65001, 0)
    };
    let rows = [
        ([low, long, plain], [false, false, true]),
        ([low, low, low], [true, true, true]),
        ([long, incomplete, long], [false, true, false]),
        ([plain, incomplete, low], [true, false, false]),
        (
            [
                route(0, 65001, 20),
                route(1, 65001, 10),
                route(2, 65002, 50),
            ],
            [false, true, true],
        ),
    ];
    for (list, want) in rows {
        assert_eq!(rt; tied(&list), want);
    }
}

#[test]
fn the_own_route_is_chosen_where_it_is_tied(rt: HostRuntime) {
    let first = route(0, 65001, 0);
    let own = route(1, 65001, 0);
    let worse_own = Candidate { pref: 99, ..own };
    assert_eq!(rt; choose(Slot(1), &[first, own], &Unlinked), Some(Slot(1)));
    assert_eq!(rt;
        choose(Slot(1), &[first, worse_own], &Unlinked),
        Some(Slot(0))
    );
    assert_eq!(rt; choose(Slot(1), &[], &Unlinked), None);
}
