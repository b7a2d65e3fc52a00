//! Readings of what is pending, and of what a slice works, that are wrong, each with a feed whose outcome shows it.

ghost use Rattle.std.specs.Prelude.{◌≡◌, [], ◌∷◌, ◌++◌};
ghost use Rattle.meaning_cases.specs.Examples.{linked, tie_output};
ghost use Rattle.feed_meaning.specs.Platform.{fresh};
ghost use Rattle.feed_meaning.specs.Runs.{platform_after, all_output};
ghost use Rattle.meaning_cases.specs.LinkStateFeeds.{unlinked, slice_of};
ghost use Rattle.meaning_cases.specs.PendingFeeds.{announced_prefix, default_route, ends_of_the_row, announced_by_C, announced_by_C_output, costs_cancel, costs_cancel_later, further_exit, slice_of_second, slice_of_second_output};

/// Two LSAs that come at once leave a cost as it was, since one link costs more and another less: nothing is pending. Where
/// they come one after the other the prefix is. With costs compared LSA by LSA it would be pending both times.
pub fn costs_are_compared_once_all_came()
    ensures before { all_output (fresh ends_of_the_row) announced_by_C ≡ announced_by_C_output }
    ensures at_once { (platform_after (fresh ends_of_the_row) costs_cancel).server.pending ≡ [] }
    ensures apart { (platform_after (fresh ends_of_the_row) costs_cancel_later).server.pending ≡ announced_prefix ∷ [] }
{}

/// The cost to a router changes whose route nobody was given, while the costs to the exits in use stay: the prefix is
/// pending, and once it is worked nothing is sent. With only those prefixes pending whose present exit changed it wouldn't
/// be.
pub fn a_cost_to_an_unused_exit_counts()
    ensures pending { (platform_after (fresh unlinked) further_exit).server.pending ≡ announced_prefix ∷ [] }
    ensures worked { (platform_after (fresh unlinked) (further_exit ++ slice_of 1 1 ∷ [])).server.pending ≡ [] }
    ensures output { all_output (fresh unlinked) (further_exit ++ slice_of 1 1 ∷ []) ≡ tie_output }
{}

/// A slice of one prefix works the least one of its shard, though a lesser one of the other shard is pending, which stays
/// so. With prefixes of other shards counted nothing would be worked.
pub fn a_slice_counts_the_prefixes_of_its_shard()
    ensures output { all_output (fresh linked) slice_of_second ≡ slice_of_second_output }
    ensures left { (platform_after (fresh linked) slice_of_second).server.pending ≡ default_route ∷ [] }
{}
