//! Each fault of a message (RFC 4271 sections 6.1 to 6.3) with what a session answers, and each message that a state doesn't
//! take (section 6.6).

ghost use Rattle.std.specs.Prelude.{◌≡◌, [], ◌∷◌, ◌++◌, drop, Some};
ghost use Rattle.rcp_model.specs.Sessions.{ending, Received, Octets, nothing};
ghost use Rattle.meaning_cases.specs.Examples.{announcement_by};
ghost use Rattle.meaning_cases.specs.Cases.{from_igp, by_65001};
ghost use Rattle.meaning_cases.specs.SessionCases.{done, done_established, open_30, alive, cease, header_with, faulted};
ghost use Rattle.meaning_cases.specs.FaultCases.{refused_with, open_of, attributes_alone, announcing, withdrawn_too_long, withdrawal_of_33_bits, announcement_cut_short, confirmed_then, confirmed_and};

/// A header (section 6.1): the marker, and then the type, which is in the data.
pub fn faulty_headers_are_told()
    ensures marker { done (Octets (0 ∷ drop 1 alive) 0 ∷ []) ≡ faulted 1 1 }
    ensures low_type { done (Octets (header_with 0 19 0) 0 ∷ []) ≡ refused_with 22 1 3 (0 ∷ []) }
    ensures high_type { done (Octets (header_with 0 19 5) 0 ∷ []) ≡ refused_with 22 1 3 (5 ∷ []) }
{}

/// The optional parameters of an OPEN (section 6.2): their length, the end of each, and its type, from the front.
pub fn faulty_parameters_are_refused()
    ensures length { done (Octets (open_of 29 1 []) 0 ∷ []) ≡ faulted 2 0 }
    ensures past_the_end { done (Octets (open_of 31 2 (2 ∷ 1 ∷ [])) 0 ∷ []) ≡ faulted 2 0 }
    ensures unknown { done (Octets (open_of 31 2 (1 ∷ 0 ∷ [])) 0 ∷ []) ≡ faulted 2 4 }
    ensures front_first { done (Octets (open_of 33 4 (1 ∷ 0 ∷ 2 ∷ 9 ∷ [])) 0 ∷ []) ≡ faulted 2 4 }
    ensures end_before_type { done (Octets (open_of 31 2 (1 ∷ 1 ∷ [])) 0 ∷ []) ≡ faulted 2 0 }
{}

/// A Malformed Attribute List (section 6.3): sections that pass the message, an attribute that passes its section, and a type
/// that stands twice.
pub fn malformed_lists_are_refused()
    ensures sections { done_established (Octets withdrawn_too_long 0 ∷ []) ≡ faulted 3 1 }
    ensures past_the_end { done_established (Octets (attributes_alone 26 3 (64 ∷ 1 ∷ 1 ∷ [])) 0 ∷ []) ≡ faulted 3 1 }
    ensures twice { done_established (Octets (attributes_alone 31 8 (from_igp ++ from_igp)) 0 ∷ []) ≡ faulted 3 1 }
{}

/// A well-known attribute that is unrecognised or missing (section 6.3): the attribute is in the data, or the type of the first that
/// is missing.
pub fn well_known_attributes_are_asked_for()
    ensures unrecognised { done_established (Octets (attributes_alone 26 3 (64 ∷ 99 ∷ 0 ∷ [])) 0 ∷ []) ≡ refused_with 24 3 2 (64 ∷ 99 ∷ 0 ∷ []) }
    ensures no_origin { done_established (Octets (announcing 27 0 []) 0 ∷ []) ≡ refused_with 22 3 3 (1 ∷ []) }
    ensures no_path { done_established (Octets (announcing 31 4 from_igp) 0 ∷ []) ≡ refused_with 22 3 3 (2 ∷ []) }
    ensures no_next_hop { done_established (Octets (announcing 38 11 (from_igp ++ by_65001)) 0 ∷ []) ≡ refused_with 22 3 3 (3 ∷ []) }
{}

/// The flags of an attribute, its length and its value, in this order (section 6.3). The attribute is in the data, but for AS_PATH.
pub fn faulty_attributes_are_told()
    ensures flags { done_established (Octets (attributes_alone 27 4 (192 ∷ 1 ∷ 1 ∷ 0 ∷ [])) 0 ∷ []) ≡ refused_with 25 3 4 (192 ∷ 1 ∷ 1 ∷ 0 ∷ []) }
    ensures flags_first { done_established (Octets (attributes_alone 28 5 (192 ∷ 1 ∷ 2 ∷ 0 ∷ 0 ∷ [])) 0 ∷ []) ≡ refused_with 26 3 4 (192 ∷ 1 ∷ 2 ∷ 0 ∷ 0 ∷ []) }
    ensures length { done_established (Octets (attributes_alone 28 5 (64 ∷ 1 ∷ 2 ∷ 3 ∷ 0 ∷ [])) 0 ∷ []) ≡ refused_with 26 3 5 (64 ∷ 1 ∷ 2 ∷ 3 ∷ 0 ∷ []) }
    ensures next_hop_low { done_established (Octets (attributes_alone 30 7 (64 ∷ 3 ∷ 4 ∷ 0 ∷ 0 ∷ 0 ∷ 1 ∷ [])) 0 ∷ []) ≡ refused_with 28 3 8 (64 ∷ 3 ∷ 4 ∷ 0 ∷ 0 ∷ 0 ∷ 1 ∷ []) }
    ensures next_hop_high { done_established (Octets (attributes_alone 30 7 (64 ∷ 3 ∷ 4 ∷ 224 ∷ 0 ∷ 0 ∷ 1 ∷ [])) 0 ∷ []) ≡ refused_with 28 3 8 (64 ∷ 3 ∷ 4 ∷ 224 ∷ 0 ∷ 0 ∷ 1 ∷ []) }
    ensures communities { done_established (Octets (attributes_alone 29 6 (192 ∷ 8 ∷ 3 ∷ 0 ∷ 0 ∷ 1 ∷ [])) 0 ∷ []) ≡ refused_with 27 3 9 (192 ∷ 8 ∷ 3 ∷ 0 ∷ 0 ∷ 1 ∷ []) }
    ensures segment_type { done_established (Octets (attributes_alone 30 7 (64 ∷ 2 ∷ 4 ∷ 3 ∷ 1 ∷ 253 ∷ 233 ∷ [])) 0 ∷ []) ≡ faulted 3 11 }
    ensures no_numbers { done_established (Octets (attributes_alone 28 5 (64 ∷ 2 ∷ 2 ∷ 2 ∷ 0 ∷ [])) 0 ∷ []) ≡ faulted 3 11 }
{}

/// A prefix above 32 bits, or with too few octets, among those withdrawn or announced (section 6.3).
pub fn malformed_prefixes_are_refused()
    ensures withdrawn { done_established (Octets withdrawal_of_33_bits 0 ∷ []) ≡ faulted 3 10 }
    ensures announced { done_established (Octets announcement_cut_short 0 ∷ []) ≡ faulted 3 10 }
{}

/// A KEEPALIVE before the OPEN, and an OPEN or an UPDATE before the KEEPALIVE, are errors of the state (section 6.6). A
/// NOTIFICATION ends the session in each state, without an answer.
pub fn each_state_takes_its_messages()
    ensures keepalive { done (Octets alive 0 ∷ []) ≡ faulted 5 0 }
    ensures notified { done (Octets cease 0 ∷ []) ≡ record nothing { closed = Some (ending Received 6 0) } }
    ensures second_open { done (confirmed_then open_30) ≡ confirmed_and (faulted 5 0) }
    ensures early_update { done (confirmed_then (announcement_by 1)) ≡ confirmed_and (faulted 5 0) }
    ensures notified_later { done (confirmed_then cease) ≡ confirmed_and (record nothing { closed = Some (ending Received 6 0) }) }
{}
