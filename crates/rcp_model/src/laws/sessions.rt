//! The course of a session, whatever octets come and however they are cut (RFC 4271 section 8).

ghost use Rattle.std.specs.Prelude.{◌≡◌, ℕ, true, List, [], ◌∷◌, map};
ghost use Rattle.std.specs.List.{concat, AllByRecursion};
ghost use Rattle.rcp_base.specs.Roster.{RosterOf};
ghost use Rattle.rcp_model.specs.Sessions.{SessionState, Input, Octets, is_closed, nothing, answer, answers};
ghost use Rattle.rcp_base.specs.Octets.{AreOctets};
ghost use Rattle.rcp_model.specs.Telling.{BringsOctets, IsTold};

/// A closed session stays closed, and does nothing, whatever comes.
pub fn closed_session_stays_closed()
    ensures { (roster : RosterOf) (input : Input) (session : SessionState) → is_closed session.phase ≡ true
        → answer roster input session ≡ record { after = session; does = nothing } }
{}

/// However octets that come at one time are cut into pieces, the session does the same and is the same afterwards as where they
/// come at once: the same messages, events, claim and end. So it is for any two cuts of them.
pub fn any_cut()
    ensures whole { (roster : RosterOf) (now : ℕ) (piece : List ℕ) (pieces : List (List ℕ)) (session : SessionState)
        → answers roster (map (λ p. Octets p now) (piece ∷ pieces)) session
        ≡ answer roster (Octets (concat (piece ∷ pieces)) now) session }
    ensures same { (roster : RosterOf) (now : ℕ) (piece other : List ℕ) (pieces others : List (List ℕ)) (session : SessionState)
        → concat (piece ∷ pieces) ≡ concat (other ∷ others)
        → answers roster (map (λ p. Octets p now) (piece ∷ pieces)) session
        ≡ answers roster (map (λ p. Octets p now) (other ∷ others)) session }
{}

/// What a session reports of its router is in form: prefixes have no bits after their length, and each route has exactly
/// the fields of its octets, which are canonical. Octets that are kept are octets.
pub fn told_routes_are_those_of_their_octets()
    ensures told { (roster : RosterOf) (input : Input) (session : SessionState) → AreOctets session.kept → BringsOctets input
        → AllByRecursion (IsTold roster.as_number) (answer roster input session).does.events }
    ensures kept { (roster : RosterOf) (input : Input) (session : SessionState) → AreOctets session.kept → BringsOctets input
        → AreOctets (answer roster input session).after.kept }
{}
