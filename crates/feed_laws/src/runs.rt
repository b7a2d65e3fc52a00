//! What records come to within a feed.

ghost use Rattle.std.specs.Prelude.{◌≡◌, ℕ, ◌<◌, List, AllPairs, min, take, Some, None};
ghost use Rattle.rcp_base.specs.Octets.{AreOctets};
ghost use Rattle.rcp_base.specs.Feed.{FeedRecord};
ghost use Rattle.rcp_base.specs.Maps.{get_at};
ghost use Rattle.rcp_base.specs.Roster.{RosterOf};
ghost use Rattle.rcp_model.specs.LinkState.{same_number};
ghost use Rattle.rcp_model.specs.Sessions.{SessionState};
ghost use Rattle.feed_meaning.specs.Platform.{Platform, fresh, nothing_done};
ghost use Rattle.feed_meaning.specs.Runs.{act, platform_after, NumbersRise, Headline};
ghost use Rattle.feed_meaning.specs.WholeFeeds.{feed_meaning};
ghost use Rattle.rcp_base.specs.declared.kinds.Kind.TheVariants as kind;
ghost use Rattle.feed_meaning.specs.OutRecords.{MOST};
ghost use Rattle.feed_laws.specs.Counts.{count_updates};
ghost use Rattle.feed_laws.specs.Order.{StandByConnection, StandBeforeLast};
ghost use Rattle.feed_laws.specs.Cuts.{octets_record, end_record};

/// For all octets, after each of the records that are acted on: for each connected router and each prefix that isn't
/// pending, the octets sent to the router so far, replayed, give at that prefix exactly what it is offered.
pub fn octets_sent_give_the_offer_in_every_feed()
    ensures { (octets : List ℕ) (roster : RosterOf) (count : ℕ) → AreOctets octets → (feed_meaning octets).roster ≡ Some roster
        → Headline roster (take count (feed_meaning octets).items) }
{}

/// Octets and the end of a connection that isn't open change nothing, and nothing is put out for them.
pub fn records_of_no_connection_change_nothing()
    ensures octets { (platform : Platform) (number : ℕ) (body : List ℕ) → get_at same_number number platform.connections ≡ None
        → act platform (octets_record number body) ≡ nothing_done platform }
    ensures end { (platform : Platform) (number : ℕ) (body : List ℕ) → get_at same_number number platform.connections ≡ None
        → act platform (end_record number body) ≡ nothing_done platform }
{}

/// After every list of records in which the numbers of connections rise, the open connections stand by rising number, each
/// once.
pub fn connections_stand_by_rising_number()
    ensures { (roster : RosterOf) (items : List FeedRecord) → NumbersRise 0 items
        → AllPairs (λ (a b : ℕ × SessionState). a.0 < b.0) (platform_after (fresh roster) items).connections }
{}

/// What a time or a slice puts out then stands by rising number of its connections, and so does all but the summary of what
/// a drain puts out.
pub fn output_stands_by_rising_number()
    ensures time { (roster : RosterOf) (items : List FeedRecord) → NumbersRise 0 items → (source : ℕ) (body : List ℕ)
        → StandByConnection (act (platform_after (fresh roster) items) (record { kind = kind.Time; source = source; body = body })).out }
    ensures slice { (roster : RosterOf) (items : List FeedRecord) → NumbersRise 0 items → (source : ℕ) (body : List ℕ)
        → StandByConnection (act (platform_after (fresh roster) items) (record { kind = kind.Slice; source = source; body = body })).out }
    ensures drain { (roster : RosterOf) (items : List FeedRecord) → NumbersRise 0 items → (source : ℕ) (body : List ℕ)
        → StandBeforeLast (act (platform_after (fresh roster) items) (record { kind = kind.Drain; source = source; body = body })).out }
{}

/// The platform's count of UPDATEs is, after every list of records, how many messages their slices and drains put out, up
/// to 2^64 - 1.
pub fn updates_are_counted()
    ensures { (roster : RosterOf) (items : List FeedRecord)
        → (platform_after (fresh roster) items).updates ≡ min (count_updates (fresh roster) items) MOST }
{}
