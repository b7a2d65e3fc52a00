//! The turns of a record: they are the same by what can be asked of a platform, and each is the same events on its shards.

ghost use Rattle.std.specs.Prelude.{◌≡◌, List};
ghost use Rattle.std.specs.List.{AllByRecursion, flat_map};
ghost use Rattle.rcp_base.specs.Feed.{FeedRecord};
ghost use Rattle.rcp_base.specs.Octets.{AreOctets};
ghost use Rattle.feed_meaning.specs.Platform.{Platform};
ghost use Rattle.feed_meaning.specs.SessionTurns.{Turn, after_turn, after_turns, turn_output, record_turns, turns_act};
ghost use Rattle.platform_laws.specs.Platforms.{PlatformOf, IsSeen};
ghost use Rattle.platform_laws.specs.Turns.{turns_of_record, seen_after_turn, seen_after_turns, noted_at, IsTurnInForm};

/// The turns of a record depend on the roster, the sessions and the time alone.
pub fn turns_depend_on_sessions()
    ensures { (platform : Platform) (seen : PlatformOf) (item : FeedRecord) → IsSeen platform seen → turns_of_record seen item ≡ record_turns platform item }
{}

/// Each turn has events in form and keeps octets for later, where the body of the record has octets.
pub fn sessions_announce_routes_of_their_octets()
    ensures { (platform : Platform) (seen : PlatformOf) (item : FeedRecord) → IsSeen platform seen → AreOctets item.body
        → AllByRecursion (IsTurnInForm platform.roster.as_number) (record_turns platform item) }
{}

/// A turn gives its connection the session that it comes to, and the shards its events; and so for a list of turns.
pub fn a_turn_acts_on_its_session_and_the_shards()
    ensures one { (turn : Turn) (platform : Platform) (seen : PlatformOf) → IsSeen platform seen → IsTurnInForm platform.roster.as_number turn
        → IsSeen (after_turn turn platform) (seen_after_turn turn seen) }
    ensures all { (turns : List Turn) (platform : Platform) (seen : PlatformOf) → IsSeen platform seen → AllByRecursion (IsTurnInForm platform.roster.as_number) turns
        → IsSeen (after_turns turns platform) (seen_after_turns turns seen) }
{}

/// The first stage of a record: its turns, at its time, and what they put out.
pub fn the_turns_of_a_record()
    ensures after { (platform : Platform) (seen : PlatformOf) (item : FeedRecord) → IsSeen platform seen → AreOctets item.body
        → IsSeen (turns_act platform item).after (seen_after_turns (turns_of_record seen item) (noted_at item seen)) }
    ensures output { (platform : Platform) (seen : PlatformOf) (item : FeedRecord) → IsSeen platform seen
        → (turns_act platform item).out ≡ flat_map turn_output (turns_of_record seen item) }
{}
