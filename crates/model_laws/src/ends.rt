//! How sessions end (RFC 4271 sections 6 and 8): with which NOTIFICATION, or with none.

ghost use Rattle.std.specs.Prelude.{◌≡◌, ℕ, false, List, is_some};
ghost use Rattle.rcp_base.specs.Roster.{RosterOf};
ghost use Rattle.rcp_model.specs.Sessions.{SessionState, Input, is_closed, answer, answers, begun, begun_established, then_also};
ghost use Rattle.model_laws.specs.Ends.{IsEndTold};

/// A session that is open is closed afterwards exactly where it answered with its end.
pub fn an_end_closes()
    ensures { (roster : RosterOf) (input : Input) (session : SessionState) → is_closed session.phase ≡ false
        → is_closed (answer roster input session).after.phase ≡ is_some (answer roster input session).does.closed }
{}

/// Whatever comes to a session, in one answer and in any number of them: where it ends by a fault, the last message that is
/// sent is the NOTIFICATION with the code and subcode of its end; where its seat is taken, it is that of Cease (section
/// 6.7). No other message is a NOTIFICATION, and where it ends otherwise, or doesn't, none is.
pub fn each_end_has_its_notification()
    ensures one { (roster : RosterOf) (input : Input) (session : SessionState) → IsEndTold (answer roster input session).does }
    ensures run { (roster : RosterOf) (inputs : List Input) (session : SessionState) → IsEndTold (answers roster inputs session).does }
{}

/// So it is for a connection from its beginning, of an OPEN or established.
pub fn each_connection_ends_so()
    ensures opened { (roster : RosterOf) (now : ℕ) (inputs : List Input)
        → IsEndTold (then_also (begun roster now).does (answers roster inputs (begun roster now).after).does) }
    ensures established { (roster : RosterOf) (slot : ℕ) (inputs : List Input)
        → IsEndTold (then_also (begun_established slot).does (answers roster inputs (begun_established slot).after).does) }
{}
