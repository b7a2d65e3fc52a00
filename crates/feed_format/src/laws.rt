//! Laws of records.

ghost use Rattle.std.specs.Prelude.{◌≡◌, ℕ, List, ◌++◌, None, Ok};
ghost use Rattle.rcp_base.specs.Feed.{FeedState, FeedRecord, IsRecord, record_octets, fault_of, front};

/// A record that is valid after those before is read again from its octets, whatever follows them.
pub fn records_are_read_again()
    ensures { (state : FeedState) (item : FeedRecord) (more : List ℕ) → IsRecord item → fault_of state item ≡ None → front state (record_octets item ++ more) ≡ Ok (item, more) }
{}
