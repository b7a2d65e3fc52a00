ghost use Rattle.std.specs.Prelude.{◌≡◌, length};

use crate::Marks;
use decision::Candidate;
use rcp_base::{Addr, Slot};
use std::test::Fail;

/// A route IGP by one AS, with preference 100.
fn route(neighbour: u32, med: u32) -> Candidate {
    Candidate {
        slot: Slot(0),
        id: Addr(0),
        pref: 100,
        hops: 1,
        origin: 0,
        neighbour,
        med,
    }
}

/// The marks of four members by three routes, of slots 3, 0 and 1.
fn marked(marks: &mut Marks, routes: [Candidate; 3]) -> [bool; 4]
    requires { length marks.old ≡ 4 }
    ensures { length marks.new ≡ 4 }
{
    let [a, b, c] = routes;
    marks.set(&[
        Candidate { slot: Slot(3), ..a },
        Candidate { slot: Slot(0), ..b },
        Candidate { slot: Slot(1), ..c },
    ]);
    let all = marks.as_slice();
    [all[0], all[1], all[2], all[3]]
}

#[test]
fn the_tied_slots_alone_are_marked(rt: HostRuntime) -> Result<(), Fail> {
    let plain = route(65001, 10);
    let low = Candidate { pref: 99, ..plain };
    let long = Candidate { hops: 2, ..plain };
    let rows = [
        ([plain, plain, plain], [true, true, false, true]),
        ([low, long, plain], [false, true, false, false]),
        // a lower exit counts among the routes of one neighbouring AS alone
        (
            [route(65002, 50), route(65001, 20), plain],
            [false, true, false, true],
        ),
        (
            [route(65001, 11), route(65002, 50), plain],
            [true, true, false, false],
        ),
        ([long, low, low], [false, false, false, true]),
    ];
    let mut marks = Marks::new(rt.alloc(), 4)?;
    for (routes, want) in rows {
        assert_eq!(rt; marked(&mut marks, routes), want);
    }
    Ok(())
}
