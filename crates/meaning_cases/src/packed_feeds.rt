//! Feeds in which several prefixes change at once: each is checked by computing it.

ghost use Rattle.std.specs.Prelude.{◌≡◌};
ghost use Rattle.meaning_cases.specs.Examples.{linked};
ghost use Rattle.feed_meaning.specs.Platform.{fresh};
ghost use Rattle.feed_meaning.specs.Runs.{all_output};
ghost use Rattle.meaning_cases.specs.LinkStateFeeds.{in_one_shard};
ghost use Rattle.meaning_cases.specs.PackedFeeds.{together, together_output, together_and_gone, together_and_gone_output, slice_of_both, slice_of_both_output, two_groups, two_groups_output};

/// Prefixes with the same attributes share an UPDATE (RFC 4271 section 4.3), in a drain and in a slice, and so do prefixes
/// that are withdrawn. With an UPDATE for each prefix there would be twice as many.
pub fn prefixes_of_one_route_share_an_update()
    ensures announced { all_output (fresh linked) together ≡ together_output }
    ensures withdrawn { all_output (fresh linked) together_and_gone ≡ together_and_gone_output }
    ensures slice { all_output (fresh in_one_shard) slice_of_both ≡ slice_of_both_output }
{}

/// What is withdrawn comes first, though its prefix is the greatest. Then come the announced prefixes in groups of equal
/// attributes, the group with the least prefix first, though the other one was announced before it.
pub fn withdrawals_come_first_and_groups_by_their_least_prefix()
    ensures { all_output (fresh linked) two_groups ≡ two_groups_output }
{}
