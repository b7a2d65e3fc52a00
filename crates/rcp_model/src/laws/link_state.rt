//! What the packets of a link-state stream do to the link state (RFC 2328 section 13).

ghost use Rattle.std.specs.Prelude.{◌≡◌, ◌+◌, ◌++◌, ℕ, List, length};
ghost use Rattle.rcp_model.specs.LinkState.{LinkState};
ghost use Rattle.rcp_model.specs.LinkStateUpdates.{lsas_of_packets, left_out, after_packets};

/// Packets act in their order: at one time it makes no difference whether they come at once or one after another.
pub fn packets_act_in_their_order()
    ensures state { (area now : ℕ) (first others : List (List ℕ)) (state : LinkState) →
        after_packets area now (first ++ others) state ≡ after_packets area now others (after_packets area now first state) }
    ensures left_out { (area : ℕ) (first others : List (List ℕ)) →
        length (left_out (lsas_of_packets area (first ++ others)))
        ≡ length (left_out (lsas_of_packets area first)) + length (left_out (lsas_of_packets area others)) }
{}
