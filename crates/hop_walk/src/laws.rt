//! The hop law, as the contract of a function that does nothing.

ghost use Rattle.std.specs.Prelude.{ℕ, List, Contains};
ghost use Rattle.rcp_base.specs.declared.names.Edge.{Edge};
ghost use Rattle.hop_walk.specs.Hops.{HopLaw, IsPath, IsOnTheWay};

/// At a prefix that isn't pending, where no edge of cost 0 begins in the partition of a connected router, every connected router
/// on any shortest path from it to its egress chooses that egress, and was given its octets, or nothing where it is the egress.
pub fn routers_on_the_way_choose_the_egress()
    ensures { HopLaw }
{}

/// Each router of a path stands on a shortest path from its first router to its last.
pub fn routers_of_a_path_are_on_the_way()
    ensures { (edges : List Edge) (u w v : ℕ) (path : List ℕ) → IsPath edges v u path → Contains path w → IsOnTheWay edges u w v }
{}
