//! Sessions whose course is known (RFC 4271 sections 6 and 8): each is checked by computing it.

ghost use Rattle.std.specs.Prelude.{◌≡◌, true, false, [], ◌∷◌, ◌++◌, take, drop, Some};
ghost use Rattle.rcp_model.specs.Messages.{marker};
ghost use Rattle.meaning_cases.specs.Examples.{linked, announcement_by};
ghost use Rattle.rcp_model.specs.Sessions.{begun, ending, Faulted, Received, SeatTaken, Ended, Octets, Seat, Moment, End, Announce, Withdraw, Up, nothing};
ghost use Rattle.meaning_cases.specs.SessionCases.{done, done_established, platform_open, open_with, open_30, alive, cease, header_with, faulted, faulted_with, timeout, up_with, was_up, by_65001_at_A, withdrawal, empty_update, origin_refused};
ghost use Rattle.meaning_cases.specs.Cases.{faulty_announcement};

/// A connection begins with the platform's OPEN: its AS, its hold time and its BGP Identifier (section 4.2).
pub fn connection_begins_with_an_open()
    ensures { (begun linked 0).does.sent ≡ platform_open ∷ [] }
{}

/// A length that no message of the type has is reported with the length field (section 6.1).
pub fn faulty_lengths_are_told()
    ensures short { done (Octets (header_with 0 18 4) 0 ∷ []) ≡ faulted_with 1 2 0 18 }
    ensures long { done (Octets (header_with 16 1 2) 0 ∷ []) ≡ faulted_with 1 2 16 1 }
    ensures body { done (Octets (header_with 0 20 4) 0 ∷ []) ≡ faulted_with 1 2 0 20 }
    ensures early { done (Octets (take 18 (header_with 0 18 4)) 0 ∷ []) ≡ nothing }
{}

/// The faults of an OPEN (section 6.2): hold time, BGP Identifier, AS and version.
pub fn faulty_opens_are_refused()
    ensures hold { done (Octets (open_with 4 232 2 1) 0 ∷ []) ≡ faulted 2 6 }
    ensures identifier { done (Octets (open_with 4 232 30 9) 0 ∷ []) ≡ faulted 2 3 }
    ensures as_number { done (Octets (open_with 4 233 30 1) 0 ∷ []) ≡ faulted 2 2 }
    ensures version { done (Octets (open_with 3 232 30 1) 0 ∷ []) ≡ faulted_with 2 1 0 4 }
{}

/// The hold time is the smaller of the two, here 30 seconds. A KEEPALIVE is sent each third of it, and the session ends where
/// nothing was read for so long (section 6.5).
pub fn timers_run_from_the_last_read()
    ensures early { done (up_with open_30 ++ Moment 9 ∷ []) ≡ was_up (alive ∷ []) }
    ensures third { done (up_with open_30 ++ Moment 9 ∷ Moment 10 ∷ []) ≡ was_up (alive ∷ alive ∷ []) }
    ensures again { done (up_with open_30 ++ Moment 10 ∷ Moment 19 ∷ Moment 29 ∷ []) ≡ was_up (alive ∷ alive ∷ alive ∷ []) }
    ensures expired { done (up_with open_30 ++ Moment 10 ∷ Moment 29 ∷ Moment 30 ∷ []) ≡ record (was_up (alive ∷ alive ∷ alive ∷ timeout ∷ [])) { closed = Some (ending Faulted 4 0) } }
    ensures read { done (up_with open_30 ++ Octets alive 29 ∷ Moment 58 ∷ []) ≡ was_up (alive ∷ alive ∷ []) }
{}

/// A hold time of 0 on one side means no timers, and before the OPEN 240 seconds are given.
pub fn no_hold_time_never_expires()
    ensures none { done (up_with (open_with 4 232 0 1) ++ Moment 1000000 ∷ []) ≡ was_up (alive ∷ []) }
    ensures waiting { done (Octets (take 20 open_30) 100 ∷ Moment 239 ∷ []) ≡ nothing }
    ensures waited { done (Octets (take 20 open_30) 100 ∷ Moment 240 ∷ []) ≡ faulted 4 0 }
{}

/// A message that the state doesn't take (section 6.6): an UPDATE before the OPEN, an OPEN after it.
pub fn untimely_messages_are_refused()
    ensures update { done (Octets (announcement_by 1) 0 ∷ []) ≡ faulted 5 0 }
    ensures part { done (Octets (take 51 (announcement_by 1)) 0 ∷ []) ≡ nothing }
    ensures open { done_established (Octets open_30 0 ∷ []) ≡ faulted 5 0 }
{}

/// A NOTIFICATION ends the session without an answer, and what comes later does nothing.
pub fn notifications_are_not_answered()
    ensures { done_established (Octets (cease ++ alive) 0 ∷ Octets open_30 1 ∷ Moment 300 ∷ End ∷ [])
        ≡ record nothing { closed = Some (ending Received 6 0) } }
{}

/// Octets that come after the OPEN wait for the seat, and are read then. Where the seat is taken the router is sent Cease.
pub fn octets_wait_for_the_seat()
    ensures claim { done (Octets (open_30 ++ alive) 0 ∷ []) ≡ record nothing { claim = Some 0 } }
    ensures free { done (Octets (open_30 ++ take 5 alive) 0 ∷ Octets (drop 5 alive) 1 ∷ Seat true 2 ∷ []) ≡ was_up (alive ∷ []) }
    ensures taken { done (Octets (open_30 ++ alive) 0 ∷ Seat false 0 ∷ [])
        ≡ record { sent = cease ∷ []; events = []; claim = Some 0; closed = Some (ending SeatTaken 6 0) } }
{}

/// An UPDATE brings its routes, and one without prefixes nothing. One with a fault, here an ORIGIN of 3, ends the session
/// (section 6.3).
pub fn updates_tell_their_routes()
    ensures announced { done_established (Octets (announcement_by 1) 0 ∷ [])
        ≡ record nothing { events = Announce (record { addr = 3405803776; len = 24 }) by_65001_at_A ∷ [] } }
    ensures withdrawn { done_established (Octets withdrawal 0 ∷ [])
        ≡ record nothing { events = Withdraw (record { addr = 3405803776; len = 24 }) ∷ [] } }
    ensures empty { done_established (Octets empty_update 0 ∷ []) ≡ nothing }
    ensures faulty { done_established (Octets faulty_announcement 0 ∷ Octets (announcement_by 1) 0 ∷ [])
        ≡ record nothing { sent = origin_refused ∷ []; closed = Some (ending Faulted 3 6) } }
{}
