//! The definitions at work on small networks whose outcome is known: each is checked by computing it.

ghost use Rattle.std.specs.Prelude.{◌≡◌, []};
ghost use Rattle.rcp_model.specs.Edges.{edges_of};
ghost use Rattle.feed_meaning.specs.Platform.{fresh};
ghost use Rattle.feed_meaning.specs.Runs.{all_output};
ghost use Rattle.meaning_cases.specs.Examples.{A, B, link, linked, tie, tie_output};
ghost use Rattle.meaning_cases.specs.Cases.{starred, lower_exit, lower_exit_output, loop, loop_output, withdrawn_and_announced, withdrawn_and_announced_output, lone, alone, alone_output, longest, longest_output, overlong, overlong_output, lone_link_state, faulty, faulty_output};
ghost use Rattle.meaning_cases.specs.SessionFeeds.{session_loss, session_loss_output, timers, timers_output, seat_taken, seat_taken_output, in_pieces, faulty_header, faulty_header_output, refused_and_again, refused_and_again_output};

/// Two routers announce a prefix at equal interior costs from the third (RFC 4271 section 9.1.2.2 f): the one with the lower
/// BGP Identifier is chosen. Both keep their own route, and are sent nothing.
pub fn lower_identifier_breaks_a_tie()
    ensures { all_output (fresh linked) tie ≡ tie_output }
{}

/// A route is removed by one with a lower MULTI_EXIT_DISC of the same neighbouring AS, and not by one of another (section
/// 9.1.2.2 c).
pub fn exit_discriminators_of_one_neighbour_are_compared()
    ensures { all_output (fresh starred) lower_exit ≡ lower_exit_output }
{}

/// A route whose AS_PATH holds the local AS is announced, but nobody is offered it (section 9.1.2).
pub fn looped_route_is_no_candidate()
    ensures { all_output (fresh linked) loop ≡ loop_output }
{}

/// A prefix that stands among the withdrawn ones and in the NLRI of one UPDATE counts as announced (section 4.3).
pub fn prefix_withdrawn_and_announced_is_announced()
    ensures { all_output (fresh linked) withdrawn_and_announced ≡ withdrawn_and_announced_output }
{}

/// A router to which no links lead in both directions has a partition of its own, and is offered nothing of another.
pub fn lone_router_is_offered_nothing()
    ensures output { all_output (fresh lone) alone ≡ alone_output }
    ensures edges { edges_of lone_link_state [] ≡ link A B 10 }
{}

/// Attributes of 4,068 octets leave room for each prefix. An unrecognised attribute is sent on with the partial flag
/// (section 5).
pub fn longest_route_is_sent()
    ensures { all_output (fresh linked) longest ≡ longest_output }
{}

/// Attributes of 4,069 octets leave no room for a prefix of more than 24 bits in an UPDATE of 4,096 octets: the route is
/// announced, but nobody is offered it.
pub fn overlong_route_is_no_candidate()
    ensures { all_output (fresh linked) overlong ≡ overlong_output }
{}

/// An UPDATE with a fault is answered by a NOTIFICATION with the fault's data (section 6.3), and ends the session: the
/// routes that the router announced are gone, and what comes later on the connection changes nothing.
pub fn faulty_update_ends_the_session()
    ensures { all_output (fresh linked) faulty ≡ faulty_output }
{}

/// A connection that ends takes its router's routes along, also in the midst of an UPDATE: the third router's route is
/// offered instead.
pub fn lost_session_takes_its_routes_along()
    ensures { all_output (fresh linked) session_loss ≡ session_loss_output }
{}

/// A session opens, sends a KEEPALIVE each third of its hold time of 30 seconds, and expires where nothing was read for so
/// long (section 6.5).
pub fn silent_session_expires()
    ensures { all_output (fresh linked) timers ≡ timers_output }
{}

/// A further connection of a router whose seat is taken is closed with Cease (section 6.7), whether it begins established
/// or claims the seat by its OPEN. The first one stays.
pub fn second_connection_of_a_router_is_closed()
    ensures { all_output (fresh linked) seat_taken ≡ seat_taken_output }
{}

/// An announcement that comes in two pieces, cut within its header, counts as if it came at once.
pub fn cut_header_is_read()
    ensures { all_output (fresh linked) in_pieces ≡ tie_output }
{}

/// A header with a length below 19 is refused before the OPEN came (section 6.1). The end of a connection that was closed
/// is of no account.
pub fn faulty_header_ends_the_session()
    ensures { all_output (fresh linked) faulty_header ≡ faulty_header_output }
{}

/// An OPEN with the hold time 2 is refused (section 6.2). Its router has no seat, and connects anew.
pub fn refused_router_connects_anew()
    ensures { all_output (fresh linked) refused_and_again ≡ refused_and_again_output }
{}
