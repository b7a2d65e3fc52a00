use crate::costs::Costs;
use crate::route::Route;
use rcp_base::{Addr, Edge, Prefix, RouterId, Slot};

/// What knows which routes the routers of a roster announce, and which it has given to each of them.
///
/// Contracts speak of five functions beside the edges and members of `Costs`: the AS number, whether a slot is
/// connected, the attribute octets that each slot announced for a prefix, those that each slot was given for it, and
/// whether the prefix is pending. Each call answers exactly what its function says. Prefixes are ordered by address,
/// then by length.
///
/// **The law**, which `members` gives to its caller: at most 512 members have distinct routers and distinct BGP
/// Identifiers; the edges are sorted, each once, over at most 2,560 routers with costs of at most 65,535, and for each there
/// is one in the other direction; at each prefix that isn't pending each connected slot was given what the decision
/// process of RFC 4271 section 9.1 offers it, or nothing.
pub trait Assigned: Costs {
    ghost use Rattle.std.specs.Prelude.{◌≡◌, ◌<◌, ℕ, Bool, List, Option, Some, length, slice_get, option_map, IfSome};
    ghost use Rattle.rcp_base.specs.IpPrefix.{IpPrefix};
    ghost use Rattle.rcp_model.specs.Attributes.{number_width};
    ghost use Rattle.rcp_model.specs.Routes.{route_in};
    ghost use Rattle.rcp_model.specs.RouteServer.{Announced};
    ghost use Rattle.rcp_model.specs.Assigned.{IsNextAnnounced, IsAssignment};

    /// The local AS.
    ghost as_number: { Self → ℕ };

    /// Whether the router of a slot has a session that is established.
    ghost connected: { Self → ℕ → Bool };

    /// The attribute octets that each slot announced for a prefix, if it did.
    ghost announced: { Self → IpPrefix → Announced };

    /// The attribute octets that each slot was given for a prefix, if it was given some.
    ghost given: { Self → IpPrefix → ℕ → Option (List ℕ) };

    /// Whether a prefix has to be decided anew.
    ghost pending: { Self → IpPrefix → Bool };

    /// The local AS.
    fn as_number(&self) -> u32
        ensures { result ≡ as_number self.now };

    /// How many routers there are. Slots are below it. The second clause is the law.
    fn members(&self) -> u16
        ensures count { result ≡ length (Self.members self.now) }
        ensures law { IsAssignment (record { as_number = as_number self.now; members = Self.members self.now })
            (Self.edges self.now) (connected self.now) (announced self.now) (given self.now) (pending self.now) };

    /// The router of a slot.
    fn router(&self, slot: Slot) -> RouterId
        requires { slot < length (Self.members self.now) }
        ensures { option_map (λ member. member.router) (slice_get (Self.members self.now) slot) ≡ Some result };

    /// The BGP Identifier of a slot (RFC 4271 section 4.2).
    fn bgp_id(&self, slot: Slot) -> Addr
        requires { slot < length (Self.members self.now) }
        ensures { option_map (λ member. member.bgp_id) (slice_get (Self.members self.now) slot) ≡ Some result };

    /// Whether the router has a session that is established.
    fn connected(&self, slot: Slot) -> bool
        requires { slot < length (Self.members self.now) }
        ensures { result ≡ connected self.now slot };

    /// The route that the router announced for the prefix, if it did. Its fields are those of its octets in the local AS.
    fn announcement(&self, slot: Slot, p: Prefix) -> Option<&Route>
        requires { slot < length (Self.members self.now) }
        ensures attrs { option_map (λ route. route.now.attrs) result ≡ announced self.now p slot }
        ensures fields { IfSome result (λ route. route.now ≡ route_in number_width (as_number self.now) route.now.attrs) };

    /// The least prefix with an announcement after the given one, or the least of all. None where there is none.
    fn next_prefix(&self, after: Option<Prefix>) -> Option<Prefix>
        ensures { IsNextAnnounced (announced self.now) after result };

    /// Whether the prefix has to be decided anew. Until it is, each router keeps what it was given before.
    fn is_pending(&self, p: Prefix) -> bool
        ensures { result ≡ pending self.now p };

    /// The route that the router was given for the prefix, if it was given one, at a pending prefix too. Its fields are
    /// those of its octets in the local AS.
    fn table(&self, slot: Slot, p: Prefix) -> Option<&Route>
        requires { slot < length (Self.members self.now) }
        ensures attrs { option_map (λ route. route.now.attrs) result ≡ given self.now p slot }
        ensures fields { IfSome result (λ route. route.now ≡ route_in number_width (as_number self.now) route.now.attrs) };

    /// The edge at this place, from 0, of all edges by `from`, then `to`, then `cost`. None past the last.
    fn edge(&self, place: u64) -> Option<Edge>
        ensures { result ≡ slice_get (Self.edges self.now) place };
}
