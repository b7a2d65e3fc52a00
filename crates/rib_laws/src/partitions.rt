//! The interior network of a roster and a link state: who its routers are, and that its partitions don't overlap.

ghost use Rattle.std.specs.Prelude.{◌≡◌, ℕ, List, Ok};
ghost use Rattle.std.specs.Cmp.{IsEquivalence};
ghost use Rattle.rcp_model.specs.LinkState.{LinkState};
ghost use Rattle.rcp_model.specs.Edges.{edges_of};
ghost use Rattle.rcp_model.specs.Costs.{IsTwoWay, is_reached};
ghost use Rattle.rcp_model.specs.Graphs.{AreMembers};
ghost use Rattle.rcp_base.specs.Roster.{RosterOf, roster_of};

/// A text that is a roster names at most 512 routers, no two of one router ID or of one BGP Identifier, and each of its
/// links has one in the other direction.
pub fn names_of_a_roster_are_distinct()
    ensures members { (text : List ℕ) (roster : RosterOf) → roster_of text ≡ Ok roster → AreMembers roster.members }
    ensures links { (text : List ℕ) (roster : RosterOf) → roster_of text ≡ Ok roster → IsTwoWay roster.links }
{}

/// With any link state and the links of a roster each edge has one in the other direction, and so partitions don't overlap.
pub fn partitions_do_not_overlap()
    ensures edges { (state : LinkState) (text : List ℕ) (roster : RosterOf) → roster_of text ≡ Ok roster
        → IsTwoWay (edges_of state roster.links) }
    ensures partitions { (state : LinkState) (text : List ℕ) (roster : RosterOf) → roster_of text ≡ Ok roster
        → IsEquivalence (is_reached (edges_of state roster.links)) }
{}
