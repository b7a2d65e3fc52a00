//! Each roster has one canonical text.

ghost use Rattle.std.specs.Prelude.{◌≡◌, ℕ, List, Ok};
ghost use Rattle.rcp_base.specs.Roster.{RosterOf, roster_of};
ghost use Rattle.feed_laws.specs.RosterTexts.{IsRoster, roster_text};

/// The canonical text of a roster is read as that roster.
pub fn canonical_text_is_read_as_its_roster()
    ensures { (roster : RosterOf) → IsRoster roster → roster_of (roster_text roster) ≡ Ok roster }
{}

/// Each roster that is read of a text has a canonical text, which is read as it. So no two rosters have one text.
pub fn each_roster_has_a_canonical_text()
    ensures form { (text : List ℕ) (roster : RosterOf) → roster_of text ≡ Ok roster → IsRoster roster }
    ensures again { (text : List ℕ) (roster : RosterOf) → roster_of text ≡ Ok roster → roster_of (roster_text roster) ≡ Ok roster }
    ensures one { (roster other : RosterOf) → IsRoster roster → IsRoster other → roster_text roster ≡ roster_text other → roster ≡ other }
{}
