//! Octets have one reading as a feed, whatever they are.

ghost use Rattle.std.specs.Prelude.{◌≡◌, ℕ, List};
ghost use Rattle.rcp_base.specs.Octets.{AreOctets};
ghost use Rattle.rcp_base.specs.Feed.{FeedState, Feed, feed_of};
ghost use Rattle.feed_meaning.specs.WholeFeeds.{feed_meaning};
ghost use Rattle.feed_laws.specs.FeedReading.{IsFeedOf};
ghost use Rattle.feed_laws.specs.WholeReading.{IsMeaningOf};

/// The octets of the records that are read, one after another, and then those that are left are the octets. The last
/// record is Z exactly where there is no fault; else the fault is the first one of the octets that are left.
pub fn octets_are_records_and_what_is_left()
    ensures { (state : FeedState) (octets : List ℕ) → AreOctets octets → IsFeedOf state octets (feed_of state octets) }
{}

/// No other records, end and rest are so.
pub fn no_second_feed()
    ensures { (state : FeedState) (octets : List ℕ) (feed : Feed) → IsFeedOf state octets feed → feed ≡ feed_of state octets }
{}

/// What octets come to as a feed: the first record has the text of the roster, and the records after it are acted on up to
/// Z, or up to the first one with a fault, of its frame or by the roster. The fault has the number of its record,
/// from 1 on; where the roster's text has one, with its line.
pub fn a_feed_is_its_roster_and_what_follows()
    ensures { (octets : List ℕ) → AreOctets octets → IsMeaningOf octets (feed_meaning octets) (feed_meaning octets).roster }
{}
