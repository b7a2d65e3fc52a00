//! Whole feeds whose end is known: each is checked by computing it.

ghost use Rattle.std.specs.Prelude.{◌≡◌, [], ◌∷◌, length};
ghost use Rattle.rcp_base.specs.declared.kinds.FeedWhy.TheVariants as why;
ghost use Rattle.rcp_base.specs.declared.kinds.RosterWhy.TheVariants as roster_why;
ghost use Rattle.feed_meaning.specs.WholeFeeds.{Finished, FaultyRecord, FaultyRoster, feed_meaning, whole_output};
ghost use Rattle.meaning_cases.specs.FeedCases.{of_two_routers, of_a_stranger, of_a_faulty_roster, of_link_state, of_a_further_shard, cut_short};

/// A feed ends at its Z, and what follows is left.
pub fn feed_ends_at_its_z()
    ensures end { (feed_meaning of_two_routers).end ≡ Finished }
    ensures items { length (feed_meaning of_two_routers).items ≡ 3 }
    ensures left { (feed_meaning of_two_routers).left ≡ 7 ∷ 7 ∷ [] }
{}

/// A router that isn't in the roster is the fault of its record, and the records before it count.
pub fn stranger_is_a_fault_of_its_record()
    ensures end { (feed_meaning of_a_stranger).end ≡ FaultyRecord 3 why.UnknownRouter }
    ensures items { length (feed_meaning of_a_stranger).items ≡ 1 }
{}

/// A faulty line of the roster is named with its record, its number and its reason. Nothing is put out.
pub fn faulty_roster_is_told_by_its_line()
    ensures end { (feed_meaning of_a_faulty_roster).end ≡ FaultyRoster 1 (record { line = 2; why = roster_why.Word }) }
    ensures output { whole_output (feed_meaning of_a_faulty_roster) ≡ [] }
{}

/// Octets of link state are no fault, whatever they are. That of a later record is.
pub fn link_state_is_no_fault()
    ensures end { (feed_meaning of_link_state).end ≡ FaultyRecord 4 why.Twice }
    ensures items { length (feed_meaning of_link_state).items ≡ 2 }
{}

/// A slice of a shard that isn't below the roster's number of shards is the fault of its record.
pub fn further_shard_is_a_fault_of_its_record()
    ensures end { (feed_meaning of_a_further_shard).end ≡ FaultyRecord 4 why.BadShard }
    ensures items { length (feed_meaning of_a_further_shard).items ≡ 2 }
{}

/// An input that ends within a record is a fault of that record.
pub fn input_that_ends_within_a_record_is_truncated()
    ensures { (feed_meaning cut_short).end ≡ FaultyRecord 3 why.Truncated }
{}
