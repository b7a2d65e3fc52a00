//! Which prefixes are pending after an event, exactly.

ghost use Rattle.std.specs.Prelude.{◌≡◌, true, ℕ, List, ◌↔◌, bytes_eq};
ghost use Rattle.rcp_base.specs.IpPrefix.{IpPrefix};
ghost use Rattle.rcp_model.specs.Routes.{RouteFields};
ghost use Rattle.rcp_model.specs.RouteServer.{Domain, Server, ServerEvent, announced_at, is_connected, is_pending, after};
ghost use Rattle.rcp_model.specs.Pending.{IsPendingAfter};
ghost use Rattle.rcp_model.specs.ServerRibs.{IsExact, same_route, event_of};
ghost use Rattle.rib_laws.specs.Statements.{PendingExactly};

/// A prefix is pending after an event exactly where it was and isn't the one that is worked, or where the event makes it so:
/// with Up every announced prefix; with Down those that the slot announced; with a change its own, where that changes what
/// a connected slot announces; with other links those that some slot announced to which the cost from some slot changes.
pub fn pending_prefixes_are_exact()
    ensures octets { PendingExactly (List ℕ) }
    ensures routes { PendingExactly RouteFields }
{}

/// The tests of octets and of routes say exactly which are the same.
pub fn same_announcements_are_equal()
    ensures octets { IsExact bytes_eq }
    ensures routes { IsExact same_route }
{}

/// The same of the server of lists.
pub fn pending_prefixes_of_lists_are_exact()
    ensures { (domain : Domain) (event : ServerEvent) (server : Server) (p : IpPrefix)
        → (is_pending (after domain event server) p ≡ true)
        ↔ IsPendingAfter domain.members (is_connected server) (announced_at server.announcements) server.edges
        (is_pending server) (event_of event) p }
{}
