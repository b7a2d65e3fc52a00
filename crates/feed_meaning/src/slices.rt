//! What the prefixes of a slice are: the least pending ones, one after another.

ghost use Rattle.std.specs.Prelude.{◌≡◌, ℕ, suc, List, [], ◌∷◌, take};
ghost use Rattle.rcp_base.specs.IpPrefix.{IpPrefix};
ghost use Rattle.rcp_base.specs.Feed.{FeedRecord};
ghost use Rattle.rcp_model.specs.Rising.{IsRising};
ghost use Rattle.rcp_base.specs.Roster.{RosterOf};
ghost use Rattle.rcp_model.specs.RouteServer.{Domain, Server, Work, after};
ghost use Rattle.feed_meaning.specs.Platform.{fresh};
ghost use Rattle.feed_meaning.specs.Work.{pending_in};
ghost use Rattle.feed_meaning.specs.Runs.{platform_after};

/// After every list of records the pending prefixes stand in their order, each once.
pub fn pending_prefixes_rise()
    ensures { (roster : RosterOf) (items : List FeedRecord) → IsRising (platform_after (fresh roster) items).server.pending }
{}

/// A slice works the least pending prefix of its shard, and then as many less one of those that are pending after that.
/// Where none is pending it works none.
pub fn a_slice_works_the_least_prefix_again_and_again()
    ensures some { (domain : Domain) (shards shard count : ℕ) (server : Server) (least : IpPrefix) (others : List IpPrefix) → IsRising server.pending
        → pending_in shards shard server ≡ least ∷ others
        → take (suc count) (pending_in shards shard server) ≡ least ∷ take count (pending_in shards shard (after domain (Work least) server)) }
    ensures none { (shards shard count : ℕ) (server : Server) → pending_in shards shard server ≡ [] → take count (pending_in shards shard server) ≡ [] }
{}
