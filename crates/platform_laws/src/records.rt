//! A whole record, and the platform to which nothing happened.

ghost use Rattle.std.specs.Prelude.{◌≡◌, ◌≤◌, ℕ, List, []};
ghost use Rattle.rcp_base.specs.declared.names.Edge.{Edge};
ghost use Rattle.rcp_base.specs.Feed.{FeedRecord};
ghost use Rattle.rcp_base.specs.Octets.{AreOctets};
ghost use Rattle.rcp_base.specs.Roster.{RosterOf};
ghost use Rattle.rcp_model.specs.LinkState.{LinkState};
ghost use Rattle.rcp_model.specs.Edges.{edges_of, rising_edges};
ghost use Rattle.feed_meaning.specs.Platform.{Platform, fresh};
ghost use Rattle.feed_meaning.specs.Runs.{act};
ghost use Rattle.platform_laws.specs.Platforms.{PlatformOf, IsSeen};
ghost use Rattle.platform_laws.specs.Records.{new_platform, IsLinkedAt, seen_after, output_of};

/// The platform of a roster to which nothing happened is seen as one whose shards are empty.
pub fn nothing_has_happened()
    ensures seen { (roster : RosterOf) → 1 ≤ roster.shards → IsSeen (fresh roster) (new_platform roster) }
    ensures edges { (roster : RosterOf) → edges_of (record { routers = [] }) roster.links ≡ rising_edges roster.links }
{}

/// What is seen of a platform after a record depends on what was seen of it before, and so does what is put out. The link
/// state and the edges are those to which the record leads.
pub fn a_record_acts_on_what_is_seen()
    ensures after { (platform : Platform) (seen : PlatformOf) (item : FeedRecord) (state : LinkState) (edges : List Edge) → IsSeen platform seen
        → AreOctets item.body → IsLinkedAt seen item state edges → IsSeen (act platform item).after (seen_after seen item state edges) }
    ensures output { (platform : Platform) (seen : PlatformOf) (item : FeedRecord) (state : LinkState) (edges : List Edge) → IsSeen platform seen
        → AreOctets item.body → IsLinkedAt seen item state edges → (act platform item).out ≡ output_of seen item state edges }
{}
