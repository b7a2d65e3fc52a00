//! Feeds with link state and slices of work, whose outcome is known: each is checked by computing it.

ghost use Rattle.std.specs.Prelude.{◌≡◌, [], ◌∷◌, ◌++◌, length};
ghost use Rattle.meaning_cases.specs.Examples.{linked, tie_output, announcement_by};
ghost use Rattle.rcp_model.specs.Updates.{replay};
ghost use Rattle.feed_meaning.specs.Platform.{fresh};
ghost use Rattle.feed_meaning.specs.OutRecords.{sent_to};
ghost use Rattle.feed_meaning.specs.Runs.{platform_after, all_output};
ghost use Rattle.meaning_cases.specs.LinkStateFeeds.{unlinked, slice_of, cost_rises, cost_rises_output, lone_router, lone_router_output, lost_framing, lost_and_later, lost_output, in_one_shard, slices, slices_output, idle_slices, counted_slices, counted_slices_output};

/// The links of three LSAs are those of a row, and the tie is broken as over the roster's links. Where the first link costs
/// more, nothing is sent, but the prefix is pending: once it is worked, the second router is offered the third's route.
pub fn dearer_link_makes_a_prefix_pending()
    ensures before { all_output (fresh unlinked) cost_rises ≡ tie_output }
    ensures pending { (platform_after (fresh unlinked) cost_rises).server.pending ≡ record { addr = 3405803776; len = 24 } ∷ [] }
    ensures sent { replay (sent_to 2 (all_output (fresh unlinked) cost_rises)) ≡ replay (announcement_by 1) }
    ensures worked { all_output (fresh unlinked) (cost_rises ++ slice_of 1 1 ∷ []) ≡ cost_rises_output }
{}

/// A router that lists no link is in a partition of its own, and is offered nothing of another.
pub fn router_without_links_is_offered_nothing()
    ensures { all_output (fresh unlinked) lone_router ≡ lone_router_output }
{}

/// A header of another version loses the framing for good: its place in the stream is put out, and what comes later
/// changes nothing (RFC 2328 section A.3.1).
pub fn lost_framing_is_told_by_its_place()
    ensures place { all_output (fresh unlinked) lost_framing ≡ lost_output }
    ensures later { platform_after (fresh unlinked) lost_and_later ≡ platform_after (fresh unlinked) lost_framing }
    ensures output { all_output (fresh unlinked) lost_and_later ≡ lost_output }
{}

/// A slice works the least pending prefix, then the next one, and then none.
pub fn slices_work_the_least_prefixes()
    ensures { all_output (fresh in_one_shard) slices ≡ slices_output }
{}

/// A slice of no prefix, and one of a shard without pending prefixes, work nothing. No summary follows a slice.
pub fn a_slice_works_its_count_and_its_shard()
    ensures idle { all_output (fresh linked) idle_slices ≡ [] }
    ensures pending { length (platform_after (fresh linked) idle_slices).server.pending ≡ 1 }
    ensures worked { all_output (fresh linked) counted_slices ≡ counted_slices_output }
    ensures none { (platform_after (fresh linked) counted_slices).server.pending ≡ [] }
{}
