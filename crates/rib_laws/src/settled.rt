//! At each prefix that isn't pending each connected slot has what it is offered, or nothing: so it is at the beginning, and
//! each event keeps it, new links included.

ghost use Rattle.std.specs.Prelude.{◌≡◌, false, ℕ, List, Some};
ghost use Rattle.rcp_base.specs.IpPrefix.{IpPrefix};
ghost use Rattle.rcp_model.specs.Routes.{RouteFields};
ghost use Rattle.rcp_base.specs.Maps.{get_at, same_prefix};
ghost use Rattle.rcp_model.specs.Updates.{Table};
ghost use Rattle.rcp_model.specs.RouteServer.{Domain, Server, ServerEvent, announced_at, is_pending, table_of, offer, after};
ghost use Rattle.rib_laws.specs.Statements.{SettledFirst, SettledLater};

/// The finite maps of a server are settled at the beginning and after each event.
pub fn each_event_keeps_it()
    ensures first_octets { SettledFirst (List ℕ) }
    ensures later_octets { SettledLater (List ℕ) }
    ensures first_routes { SettledFirst RouteFields }
    ensures later_routes { SettledLater RouteFields }
{}

/// So are the tables of a server of lists.
pub fn each_event_keeps_it_of_lists()
    ensures { (domain : Domain) (event : ServerEvent) (server : Server)
        → ((slot : ℕ) (table : Table) (p : IpPrefix) → table_of server slot ≡ Some table → is_pending server p ≡ false
        → get_at same_prefix p table ≡ offer domain (announced_at server.announcements p) server.edges slot)
        → (slot : ℕ) (table : Table) (p : IpPrefix) → table_of (after domain event server) slot ≡ Some table
        → is_pending (after domain event server) p ≡ false
        → get_at same_prefix p table ≡ offer domain (announced_at (after domain event server).announcements p) (after domain event server).edges slot }
{}
