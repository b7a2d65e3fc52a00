//! What is asked of the shards: it is what the platform answers, and the answers are an assignment.

ghost use Rattle.std.specs.Prelude.{◌≡◌, ◌↔◌, length, ◌≤◌, ℕ, true, false, Option, List, Some, IfSome, IsSome, replicate, slice_get};
ghost use Rattle.std.specs.FinSet as set_of;
ghost use Rattle.std.specs.Ordering.{nat_cmp};
ghost use Rattle.rcp_base.specs.IpPrefix.{IpPrefix};
ghost use Rattle.rcp_base.specs.declared.names.Edge.{Edge};
ghost use Rattle.rcp_base.specs.Roster.{RosterOf};
ghost use Rattle.rcp_model.specs.Assigned.{IsAssignment};
ghost use Rattle.rcp_model.specs.Costs.{IsTwoWay};
ghost use Rattle.rcp_model.specs.Graphs.{IsGraph, AreMembers};
ghost use Rattle.rcp_model.specs.Routes.{RouteFields};
ghost use Rattle.rcp_model.specs.RouteServer.{announced_by, announced_at, table_of, offer};
ghost use Rattle.rcp_model.specs.RouteServer as lists;
ghost use Rattle.rcp_model.specs.ServerRibs.{RibEvent, Down, Change, Ribs, at_prefix, is_up, has_pending, offered, empty_ribs, ribs_after};
ghost use Rattle.rcp_model.specs.Telling.{IsRouteOf};
ghost use Rattle.feed_meaning.specs.Platform.{Platform, domain_of};
ghost use Rattle.feed_meaning.specs.Work.{cell_of};
ghost use Rattle.platform_laws.specs.Parts.{shard_number, roster_reader, shards_after, Announces, AreIdle, IsSoundShard, AreSound, edges_after, connected_after};
ghost use Rattle.platform_laws.specs.Platforms.{PlatformOf, IsSeen};
ghost use Rattle.platform_laws.specs.Asked.{shard_of, is_connected, is_pending, announced_route, given_route, octets_of, pending_count};

/// The shards answer what the platform does: who is connected, what is pending, what each slot announces, is given and is
/// offered, and over which edges.
pub fn shards_answer_for_the_platform()
    ensures connected { (platform : Platform) (seen : PlatformOf) → IsSeen platform seen → (slot : ℕ)
        → is_connected seen.shards slot ≡ lists.is_connected platform.server slot }
    ensures pending { (platform : Platform) (seen : PlatformOf) → IsSeen platform seen → (p : IpPrefix)
        → is_pending seen.roster seen.shards p ≡ lists.is_pending platform.server p }
    ensures announced { (platform : Platform) (seen : PlatformOf) → IsSeen platform seen → (p : IpPrefix) (slot : ℕ)
        → octets_of (announced_route seen.roster seen.shards p slot) ≡ announced_by platform.server.announcements slot p }
    ensures given { (platform : Platform) (seen : PlatformOf) → IsSeen platform seen → (p : IpPrefix) (slot : ℕ)
        → octets_of (given_route seen.roster seen.shards p slot) ≡ cell_of (table_of platform.server slot) p }
    ensures offered { (platform : Platform) (seen : PlatformOf) → IsSeen platform seen → (p : IpPrefix) (slot : ℕ) (ribs : Ribs RouteFields)
        → shard_of seen.roster seen.shards p ≡ Some ribs
        → octets_of (offered (roster_reader seen.roster) ribs p slot)
        ≡ offer (domain_of platform.roster) (announced_at platform.server.announcements p) platform.server.edges slot }
    ensures edges { (platform : Platform) (seen : PlatformOf) (n : ℕ) (ribs : Ribs RouteFields) → IsSeen platform seen
        → slice_get seen.shards n ≡ Some ribs → ribs.edges ≡ platform.server.edges }
{}

/// Shards that are sound at the beginning are so after each event that announces routes of their octets alone.
pub fn shards_stay_sound()
    ensures first { (roster : RosterOf) (edges : List Edge) → 1 ≤ roster.shards → AreSound roster edges set_of.empty (replicate roster.shards (empty_ribs edges)) }
    ensures later { (roster : RosterOf) (edges : List Edge) (connected : set_of.FinSet nat_cmp) (event : RibEvent RouteFields) (shards : List (Ribs RouteFields))
        → Announces (IsRouteOf roster.as_number) event → AreSound roster edges connected shards
        → AreSound roster (edges_after event edges) (connected_after event connected) (shards_after roster event shards) }
{}

/// What sound shards answer is an assignment, where the members of the roster are distinct, and the edges are those of a graph
/// and come in both directions.
pub fn sound_shards_are_an_assignment()
    ensures law { (roster : RosterOf) (edges : List Edge) (connected : set_of.FinSet nat_cmp) (shards : List (Ribs RouteFields)) → AreSound roster edges connected shards
        → AreMembers roster.members → IsGraph edges → IsTwoWay edges
        → IsAssignment (domain_of roster) edges (is_connected shards) (λ p slot. octets_of (announced_route roster shards p slot))
        (λ p slot. octets_of (given_route roster shards p slot)) (is_pending roster shards) }
    ensures connected { (roster : RosterOf) (edges : List Edge) (connected : set_of.FinSet nat_cmp) (shards : List (Ribs RouteFields)) → AreSound roster edges connected shards
        → (slot : ℕ) → is_connected shards slot ≡ set_of.contains connected slot }
    ensures fields { (roster : RosterOf) (edges : List Edge) (connected : set_of.FinSet nat_cmp) (shards : List (Ribs RouteFields)) → AreSound roster edges connected shards
        → (p : IpPrefix) (slot : ℕ)
        → IfSome (announced_route roster shards p slot) (IsRouteOf roster.as_number) × IfSome (given_route roster shards p slot) (IsRouteOf roster.as_number) }
{}

/// A shard of sound ones is sound by its number, and so it has routes and pending prefixes of its own number alone.
pub fn sound_shards_have_their_own_prefixes()
    ensures own { (roster : RosterOf) (edges : List Edge) (connected : set_of.FinSet nat_cmp) (shards : List (Ribs RouteFields)) → AreSound roster edges connected shards
        → (n : ℕ) (ribs : Ribs RouteFields) → slice_get shards n ≡ Some ribs → (p : IpPrefix) (slot : ℕ)
        → (IsSome (at_prefix ribs.announced p slot) → shard_number roster p ≡ n) × (IsSome (at_prefix ribs.given p slot) → shard_number roster p ≡ n)
        × (has_pending ribs p ≡ true → shard_number roster p ≡ n) }
    ensures same { (roster : RosterOf) (edges : List Edge) (connected : set_of.FinSet nat_cmp) (shards : List (Ribs RouteFields)) → AreSound roster edges connected shards
        → (n : ℕ) (ribs : Ribs RouteFields) → slice_get shards n ≡ Some ribs → IsSoundShard roster edges connected n ribs }
{}

/// A slot that isn't connected announces nothing and is given nothing: its Down and its changes are nothing.
pub fn idle_slots_change_nothing()
    ensures down { (roster : RosterOf) (ribs : Ribs RouteFields) → AreIdle ribs → (slot : ℕ) → is_up ribs slot ≡ false
        → ribs_after (roster_reader roster) (Down slot) ribs ≡ ribs }
    ensures change { (roster : RosterOf) (ribs : Ribs RouteFields) → AreIdle ribs → (slot : ℕ) (p : IpPrefix) (route : Option RouteFields) → is_up ribs slot ≡ false
        → ribs_after (roster_reader roster) (Change slot p route) ribs ≡ ribs }
    ensures kept { (roster : RosterOf) (ribs : Ribs RouteFields) → AreIdle ribs → (event : RibEvent RouteFields) → AreIdle (ribs_after (roster_reader roster) event ribs) }
{}

/// A slot announces a prefix, is given a route for it, or it is pending, exactly where that is so in some shard.
pub fn sound_shards_answer_together()
    ensures announced { (roster : RosterOf) (edges : List Edge) (connected : set_of.FinSet nat_cmp) (shards : List (Ribs RouteFields)) → AreSound roster edges connected shards
        → (p : IpPrefix) (slot : ℕ) → IsSome (announced_route roster shards p slot)
        ↔ ((n : ℕ) × (ribs : Ribs RouteFields) × (slice_get shards n ≡ Some ribs) × IsSome (at_prefix ribs.announced p slot)) }
    ensures given { (roster : RosterOf) (edges : List Edge) (connected : set_of.FinSet nat_cmp) (shards : List (Ribs RouteFields)) → AreSound roster edges connected shards
        → (p : IpPrefix) (slot : ℕ) → IsSome (given_route roster shards p slot)
        ↔ ((n : ℕ) × (ribs : Ribs RouteFields) × (slice_get shards n ≡ Some ribs) × IsSome (at_prefix ribs.given p slot)) }
    ensures pending { (roster : RosterOf) (edges : List Edge) (connected : set_of.FinSet nat_cmp) (shards : List (Ribs RouteFields)) → AreSound roster edges connected shards
        → (p : IpPrefix) → (is_pending roster shards p ≡ true)
        ↔ ((n : ℕ) × (ribs : Ribs RouteFields) × (slice_get shards n ≡ Some ribs) × (has_pending ribs p ≡ true)) }
    ensures pending_count { (platform : Platform) (seen : PlatformOf) → IsSeen platform seen → length platform.server.pending ≡ pending_count seen.shards }
{}
