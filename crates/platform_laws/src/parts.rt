//! The server of a platform and its shards: an event of the one is the same event on those of the others that it concerns.

ghost use Rattle.std.specs.Prelude.{◌≡◌, ℕ, List, Option, Some, map, slice_get, slice_set};
ghost use Rattle.std.specs.List.{AllByRecursion};
ghost use Rattle.rcp_base.specs.IpPrefix.{IpPrefix};
ghost use Rattle.rcp_base.specs.declared.names.Edge.{Edge};
ghost use Rattle.rcp_base.specs.Roster.{RosterOf};
ghost use Rattle.rcp_model.specs.Routes.{RouteFields};
ghost use Rattle.rcp_model.specs.RouteServer.{Server, ServerEvent, after, after_all};
ghost use Rattle.rcp_model.specs.ServerRibs.{RibEvent, Up, Down, Change, Links, Work, Ribs, ribs_of, ribs_after};
ghost use Rattle.feed_meaning.specs.Platform.{domain_of};
ghost use Rattle.platform_laws.specs.Parts.{shard_number, roster_reader, shards_after, shards_after_all, route_event, IsCanonicalEvent, AreParts, AllSettled};

/// Shards that are the parts of a server are so after an event of it that announces nothing but canonical octets, and after
/// a list of such events.
pub fn an_event_acts_on_its_shards()
    ensures one { (roster : RosterOf) (event : ServerEvent) (server : Server) (shards : List (Ribs RouteFields))
        → AreParts roster (ribs_of server) shards → IsCanonicalEvent event
        → AreParts roster (ribs_of (after (domain_of roster) event server)) (shards_after roster (route_event roster event) shards) }
    ensures all { (roster : RosterOf) (events : List ServerEvent) (server : Server) (shards : List (Ribs RouteFields))
        → AreParts roster (ribs_of server) shards → AllByRecursion IsCanonicalEvent events
        → AreParts roster (ribs_of (after_all (domain_of roster) events server)) (shards_after_all roster (map (route_event roster) events) shards) }
{}

/// Up, Down and Links act on each shard.
pub fn each_shard_is_concerned()
    ensures up { (roster : RosterOf) (slot : ℕ) (shards : List (Ribs RouteFields))
        → shards_after roster (Up slot) shards ≡ map (ribs_after (roster_reader roster) (Up slot)) shards }
    ensures down { (roster : RosterOf) (slot : ℕ) (shards : List (Ribs RouteFields))
        → shards_after roster (Down slot) shards ≡ map (ribs_after (roster_reader roster) (Down slot)) shards }
    ensures links { (roster : RosterOf) (edges : List Edge) (shards : List (Ribs RouteFields))
        → shards_after roster (Links edges) shards ≡ map (ribs_after (roster_reader roster) (Links edges)) shards }
{}

/// Change and Work act on the shard of their prefix alone.
pub fn the_prefix_s_shard_is_concerned()
    ensures change { (roster : RosterOf) (slot : ℕ) (p : IpPrefix) (route : Option RouteFields) (shards : List (Ribs RouteFields)) (ribs : Ribs RouteFields)
        → slice_get shards (shard_number roster p) ≡ Some ribs
        → shards_after roster (Change slot p route) shards ≡ slice_set shards (shard_number roster p) (ribs_after (roster_reader roster) (Change slot p route) ribs) }
    ensures work { (roster : RosterOf) (p : IpPrefix) (shards : List (Ribs RouteFields)) (ribs : Ribs RouteFields)
        → slice_get shards (shard_number roster p) ≡ Some ribs
        → shards_after roster (Work p) shards ≡ slice_set shards (shard_number roster p) (ribs_after (roster_reader roster) (Work p) ribs) }
{}

/// Where each shard is settled, each is so after an event.
pub fn shards_stay_settled()
    ensures { (roster : RosterOf) (event : RibEvent RouteFields) (shards : List (Ribs RouteFields))
        → AllSettled roster shards → AllSettled roster (shards_after roster event shards) }
{}
