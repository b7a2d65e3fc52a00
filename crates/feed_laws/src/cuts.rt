//! It makes no difference how octets that come at one time are cut into records.

ghost use Rattle.std.specs.Prelude.{◌≡◌, ℕ, true, List, ◌∷◌, ◌++◌, map};
ghost use Rattle.std.specs.List.{concat};
ghost use Rattle.rcp_base.specs.Feed.{FeedRecord};
ghost use Rattle.rcp_base.specs.IpPrefix.{IpPrefix};
ghost use Rattle.rcp_model.specs.RouteServer.{is_pending};
ghost use Rattle.feed_meaning.specs.Platform.{Platform};
ghost use Rattle.feed_meaning.specs.Runs.{act};
ghost use Rattle.feed_laws.specs.Cuts.{octets_record, links_record, run_of, acted_but_pending};

/// However the octets that come on a connection at one time are cut into records, one at least, the platform is the same
/// after them and the same is put out for them: also where one of them claims the seat of its router, so that later
/// octets come after the claim is answered, or ends the session. So it is for any two cuts, wherever they stand in a run.
pub fn any_cut_of_a_connection()
    ensures whole { (platform : Platform) (number : ℕ) (piece : List ℕ) (pieces : List (List ℕ))
        → run_of platform (map (octets_record number) (piece ∷ pieces)) ≡ act platform (octets_record number (concat (piece ∷ pieces))) }
    ensures same { (platform : Platform) (number : ℕ) (piece other : List ℕ) (pieces others : List (List ℕ)) (before later : List FeedRecord)
        → concat (piece ∷ pieces) ≡ concat (other ∷ others)
        → run_of platform (before ++ (map (octets_record number) (piece ∷ pieces) ++ later))
        ≡ run_of platform (before ++ (map (octets_record number) (other ∷ others) ++ later)) }
{}

/// However octets of the link-state stream that come at one time are cut into records, one at least, the link state, the
/// edges and the octets that are held are the same after them, and the framing is lost at the same place, or isn't. Only
/// the pending prefixes may differ, since each record compares the costs after it with those before: a prefix that is
/// pending after one record of all the octets is pending after them, and others may be.
pub fn any_cut_of_the_link_state_stream()
    ensures whole { (platform : Platform) (piece : List ℕ) (pieces : List (List ℕ))
        → acted_but_pending (run_of platform (map links_record (piece ∷ pieces)))
        ≡ acted_but_pending (act platform (links_record (concat (piece ∷ pieces)))) }
    ensures same { (platform : Platform) (piece other : List ℕ) (pieces others : List (List ℕ))
        → concat (piece ∷ pieces) ≡ concat (other ∷ others)
        → acted_but_pending (run_of platform (map links_record (piece ∷ pieces)))
        ≡ acted_but_pending (run_of platform (map links_record (other ∷ others))) }
    ensures pending { (platform : Platform) (piece : List ℕ) (pieces : List (List ℕ)) (p : IpPrefix)
        → is_pending (act platform (links_record (concat (piece ∷ pieces)))).after.server p ≡ true
        → is_pending (run_of platform (map links_record (piece ∷ pieces))).after.server p ≡ true }
{}
