//! Parts of a server, for a rule that gives each prefix a number: shards stand on them. Each law is said of servers to which
//! octets are announced, and of those to which routes are.

ghost use Rattle.std.specs.Prelude.{ℕ, List};
ghost use Rattle.rcp_model.specs.Routes.{RouteFields};
ghost use Rattle.rib_laws.specs.Statements.{ActsOnParts, RunsOnParts, PartsDetermine, LeastOfPart, AnyOrder, PendingAdds, AnnouncedAdds};

/// An event does to a part what it does to the whole, where it concerns the part, and else it leaves the part as it is; and
/// so for a list of events.
pub fn an_event_acts_on_the_parts_it_concerns()
    ensures octets { ActsOnParts (List ℕ) }
    ensures octets_all { RunsOnParts (List ℕ) }
    ensures routes { ActsOnParts RouteFields }
    ensures routes_all { RunsOnParts RouteFields }
{}

/// Servers with the same parts are the same.
pub fn parts_determine_the_whole()
    ensures octets { PartsDetermine (List ℕ) }
    ensures routes { PartsDetermine RouteFields }
{}

/// The least pending prefix of a number is the least pending one of its part.
pub fn least_pending_prefix_is_the_parts()
    ensures octets { LeastOfPart (List ℕ) }
    ensures routes { LeastOfPart RouteFields }
{}

/// Prefixes may be worked in any order, and one may be worked twice.
pub fn work_may_be_done_in_any_order()
    ensures octets { AnyOrder (List ℕ) }
    ensures routes { AnyOrder RouteFields }
{}

/// The numbers of pending and of announced prefixes are the sums over the parts.
pub fn counts_are_sums_over_the_parts()
    ensures pending_octets { PendingAdds (List ℕ) }
    ensures announced_octets { AnnouncedAdds (List ℕ) }
    ensures pending_routes { PendingAdds RouteFields }
    ensures announced_routes { AnnouncedAdds RouteFields }
{}
