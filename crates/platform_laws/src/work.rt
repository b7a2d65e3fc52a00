//! The work of a record: which prefixes are worked, in which shards, which cells change by it, and what a summary counts.

ghost use Rattle.std.specs.Prelude.{◌≡◌, ℕ, suc, true, not, ◌&&◌, if◌then◌else◌, List, Some, None, map, slice_get, slice_set};
ghost use Rattle.rcp_base.specs.IpPrefix.{IpPrefix};
ghost use Rattle.rcp_base.specs.declared.kinds.Kind.{Kind};
ghost use Rattle.rcp_base.specs.Maps.{same_prefix};
ghost use Rattle.rcp_base.specs.Roster.{RosterOf};
ghost use Rattle.rcp_model.specs.Assigned.{IsLeast};
ghost use Rattle.rcp_model.specs.Rising.{IsRising};
ghost use Rattle.rcp_model.specs.Routes.{RouteFields};
ghost use Rattle.rcp_model.specs.ServerRibs.{Work, Ribs, at_prefix, is_up, offered, has_pending, ribs_after};
ghost use Rattle.feed_meaning.specs.Platform.{Platform};
ghost use Rattle.feed_meaning.specs.OutRecords.{summary};
ghost use Rattle.feed_meaning.specs.Work.{shard_in, count_in, work_updates, work_on, work_act};
ghost use Rattle.platform_laws.specs.Parts.{roster_reader};
ghost use Rattle.platform_laws.specs.Platforms.{PlatformOf, IsSeen};
ghost use Rattle.platform_laws.specs.Asked.{all_pending};
ghost use Rattle.platform_laws.specs.Work.{worked_least, worked_all, AreChanged, changed_prefixes, slice_of, shards_worked, updates_of_work, seen_worked, summary_of, seen_after_work, output_of_work};

/// Prefixes that are worked, in whichever shards, and the UPDATEs for the cells that change: those whose value is another one
/// before and after, each to the connections of its slot.
pub fn prefixes_are_worked_in_their_shards()
    ensures after { (platform : Platform) (seen : PlatformOf) → IsSeen platform seen → (prefixes : List IpPrefix)
        → IsSeen (work_on prefixes platform).after (seen_worked prefixes seen) }
    ensures updates { (platform : Platform) (seen : PlatformOf) → IsSeen platform seen → (prefixes : List IpPrefix)
        → work_updates prefixes platform ≡ updates_of_work prefixes seen }
{}

/// The third stage of a record: the prefixes that it works, and what it puts out.
pub fn the_work_of_a_record()
    ensures after { (platform : Platform) (seen : PlatformOf) (body : List ℕ) (k : Kind) → IsSeen platform seen
        → IsSeen (work_act platform body k).after (seen_after_work seen body k) }
    ensures output { (platform : Platform) (seen : PlatformOf) (body : List ℕ) (k : Kind) → IsSeen platform seen
        → (work_act platform body k).out ≡ output_of_work seen body k }
    ensures pending { (platform : Platform) (seen : PlatformOf) → IsSeen platform seen → platform.server.pending ≡ all_pending seen.shards }
    ensures summary { (platform : Platform) (seen : PlatformOf) → IsSeen platform seen → summary platform.server platform.updates ≡ summary_of seen }
{}

/// A drain may be done shard by shard.
pub fn a_drain_works_each_shard()
    ensures { (platform : Platform) (seen : PlatformOf) → IsSeen platform seen
        → shards_worked (all_pending seen.shards) seen ≡ map (worked_all seen.roster) seen.shards }
{}

/// A slice works in its shard alone, and in none where no shard has its number.
pub fn a_slice_works_its_shard()
    ensures some { (platform : Platform) (seen : PlatformOf) (body : List ℕ) (ribs : Ribs RouteFields) → IsSeen platform seen
        → slice_get seen.shards (shard_in body) ≡ Some ribs
        → shards_worked (slice_of seen body) seen ≡ slice_set seen.shards (shard_in body) (worked_least seen.roster (count_in body) ribs) }
    ensures none { (seen : PlatformOf) (body : List ℕ) → slice_get seen.shards (shard_in body) ≡ None
        → shards_worked (slice_of seen body) seen ≡ seen.shards }
{}

/// In a shard the least pending prefix is worked, again and again, until none is left or the count is reached.
pub fn a_shard_works_its_least_prefix_again_and_again()
    ensures all { (roster : RosterOf) (ribs : Ribs RouteFields) (p : IpPrefix) → IsLeast (λ q. has_pending ribs q ≡ true) (Some p)
        → worked_all roster ribs ≡ worked_all roster (ribs_after (roster_reader roster) (Work p) ribs) }
    ensures all_none { (roster : RosterOf) (ribs : Ribs RouteFields) → IsLeast (λ q. has_pending ribs q ≡ true) None → worked_all roster ribs ≡ ribs }
    ensures some { (roster : RosterOf) (ribs : Ribs RouteFields) (count : ℕ) (p : IpPrefix) → IsLeast (λ q. has_pending ribs q ≡ true) (Some p)
        → worked_least roster (suc count) ribs ≡ worked_least roster count (ribs_after (roster_reader roster) (Work p) ribs) }
    ensures some_none { (roster : RosterOf) (ribs : Ribs RouteFields) (count : ℕ) → IsLeast (λ q. has_pending ribs q ≡ true) None
        → worked_least roster count ribs ≡ ribs }
    ensures zero { (roster : RosterOf) (ribs : Ribs RouteFields) → worked_least roster 0 ribs ≡ ribs }
{}

/// The prefixes of the cells that a slot is sent are all those at which it is given another route than before, by rising
/// order: each list that rises and has exactly these is that list. Those of a drain and of a slice rise.
pub fn cells_that_change_are_known_by_their_order()
    ensures prefixes { (platform : Platform) (seen : PlatformOf) → IsSeen platform seen → (prefixes : List IpPrefix) → IsRising prefixes
        → (slot : ℕ) (changed : List IpPrefix) → AreChanged seen.roster seen.shards (shards_worked prefixes seen) slot changed
        → changed_prefixes seen.roster prefixes seen.shards (shards_worked prefixes seen) slot ≡ changed }
    ensures drain { (seen : PlatformOf) → IsRising (all_pending seen.shards) }
    ensures slice { (seen : PlatformOf) (body : List ℕ) → IsRising (slice_of seen body) }
{}

/// Work on a prefix gives each connected slot there what it is offered, and then the prefix isn't pending. All else stays.
pub fn work_sets_the_cells_of_its_prefix()
    ensures cells { (roster : RosterOf) (ribs : Ribs RouteFields) (p q : IpPrefix) (slot : ℕ)
        → at_prefix (ribs_after (roster_reader roster) (Work p) ribs).given q slot
        ≡ (if same_prefix q p && is_up ribs slot then offered (roster_reader roster) ribs p slot else at_prefix ribs.given q slot) }
    ensures pending { (roster : RosterOf) (ribs : Ribs RouteFields) (p q : IpPrefix)
        → has_pending (ribs_after (roster_reader roster) (Work p) ribs) q ≡ (not (same_prefix q p) && has_pending ribs q) }
{}
