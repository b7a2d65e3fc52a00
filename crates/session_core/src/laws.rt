//! Laws of sessions, each the contract of a function with an empty body.

ghost use Rattle.std.specs.Prelude.{◌≡◌, ℕ, List, ◌∷◌};
ghost use Rattle.std.specs.List.{concat};
ghost use Rattle.rcp_base.specs.Roster.{RosterOf};
ghost use Rattle.rcp_model.specs.Sessions.{Doing};
ghost use Rattle.session_core.specs.Held.{Held};
ghost use Rattle.session_core.specs.Hearing.{Hears};

/// However the octets of one time are cut into pieces, of which there is one at least, `Session::bytes` of all of them
/// sends the same messages, reports the same events, makes the same claim and comes to the same end, and leaves the same
/// state: no octet is lost between two pieces.
pub fn any_cut()
    ensures { (roster : RosterOf) (now : ℕ) (piece other : List ℕ) (pieces others : List (List ℕ)) (old first second : Held) (does did : Doing)
        → concat (piece ∷ pieces) ≡ concat (other ∷ others)
        → Hears roster now (piece ∷ pieces) old first does
        → Hears roster now (other ∷ others) old second did
        → (first.state ≡ second.state) × (does ≡ did) }
{}
