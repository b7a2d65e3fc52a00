//! The law of `Assigned`, as code that is generic over it reads it.

ghost use Rattle.std.specs.Prelude.{◌≡◌, ◌<◌, true, false, length, option_map};
ghost use Rattle.rcp_model.specs.RouteServer.{offer};

use rcp_base::{Prefix, Slot};
use rcp_model::{Assigned, Route};

/// The route that a router was given for a prefix, if it was given one. Where the router is connected and the prefix isn't
/// pending, that is what the router is offered.
pub fn assigned_route<A: Assigned>(assigned: &A, slot: Slot, p: Prefix) -> Option<&Route>
    requires { slot < length (A.members assigned.now) }
    ensures { A.connected assigned.now slot ≡ true → A.pending assigned.now p ≡ false
        → option_map (λ route. route.now.attrs) result
        ≡ offer (record { as_number = A.as_number assigned.now; members = A.members assigned.now })
        (A.announced assigned.now p) (A.edges assigned.now) slot }
{
    let _count = assigned.members();
    assigned.table(slot, p)
}
