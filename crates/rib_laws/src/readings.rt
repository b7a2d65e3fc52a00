//! A server to which routes are announced, read from one to which octets are: what a shard holds, and what a feed means.

ghost use Rattle.std.specs.Prelude.{◌≡◌, ℕ, List, option_map};
ghost use Rattle.rcp_base.specs.IpPrefix.{IpPrefix};
ghost use Rattle.rcp_model.specs.Attributes.{number_width};
ghost use Rattle.rcp_model.specs.Routes.{RouteFields, route_in};
ghost use Rattle.rcp_model.specs.RouteServer.{Domain};
ghost use Rattle.rcp_model.specs.ServerRibs.{Ribs, RibEvent, octets_reader, route_reader, offered, ribs_after};
ghost use Rattle.rib_laws.specs.Readings.{IsRead, IsCanonicalChange, read_event};

/// Where each route is that of the octets in the local AS, an event keeps it so, and both offer the same. The octets that a
/// change replaces and those that it brings are canonical.
pub fn routes_are_read_from_octets()
    ensures kept { (domain : Domain) (event : RibEvent (List ℕ)) (octets : Ribs (List ℕ)) (routes : Ribs RouteFields)
        → IsRead (route_in number_width domain.as_number) octets routes → IsCanonicalChange octets event
        → IsRead (route_in number_width domain.as_number) (ribs_after (octets_reader domain) event octets)
        (ribs_after (route_reader domain.members) (read_event (route_in number_width domain.as_number) event) routes) }
    ensures offered { (domain : Domain) (octets : Ribs (List ℕ)) (routes : Ribs RouteFields)
        → IsRead (route_in number_width domain.as_number) octets routes → (p : IpPrefix) (slot : ℕ)
        → offered (route_reader domain.members) routes p slot
        ≡ option_map (route_in number_width domain.as_number) (offered (octets_reader domain) octets p slot) }
{}
