//! When the timers of a session end it (RFC 4271 sections 6.5, 8.1.3 and 10): laws of the model.
//!
//! Model: there is none. Each public function is a law of the definitions of sessions with an empty body. What comes to a session is octets
//! and times that a clock can give. A caller may rely on this: such a session ends only by a fault or by a NOTIFICATION that came, and by the
//! fault of a timer (4/0) only where the clock can give two times as far apart as the timer in use runs.
//!
//! ```text
//! ensures { .. → EndsDue can_give LARGE_HOLD (answers roster inputs (begun roster start).after).does.closed }
//! ```
#![tactic(auto)]

ghost use Rattle.std.specs.Prelude.{◌≡◌, ℕ, Bool, List, IsTrue};
ghost use Rattle.std.specs.List.{AllByRecursion};
ghost use Rattle.rcp_base.specs.Roster.{RosterOf};
ghost use Rattle.rcp_model.specs.Sessions.{SessionState, Negotiated, Claiming, Input, LARGE_HOLD, answers, begun};
ghost use Rattle.session_times.specs.Times.{IsTimely, IsCourseOf, EndsDue, claimed_hold};

/// A connection that begins with the platform's OPEN at a time of a clock, until its claim is answered: the timer in use runs 240
/// seconds.
pub fn a_greeting_ends_when_it_is_due()
    ensures { (roster : RosterOf) (can_give : ℕ → Bool) (start : ℕ) (inputs : List Input) → IsTrue (can_give start) → AllByRecursion (IsTimely can_give) inputs
        → EndsDue can_give LARGE_HOLD (answers roster inputs (begun roster start).after).does.closed }
{}

/// A session whose claim is answered with the seat: the timer in use runs the hold time, the smaller of those of the two OPENs.
pub fn a_session_with_its_seat_ends_when_it_is_due()
    ensures { (roster : RosterOf) (can_give : ℕ → Bool) (inputs : List Input) (session : SessionState) (since slot : ℕ) (terms : Negotiated)
        → session.phase ≡ Claiming since slot terms → IsCourseOf can_give inputs
        → EndsDue can_give (claimed_hold session.phase) (answers roster inputs session).does.closed }
{}
