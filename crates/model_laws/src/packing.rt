//! Into which groups the cells of a router's table are packed (RFC 4271 section 4.3).

ghost use Rattle.std.specs.Prelude.{◌≡◌, ◌≢◌, ◌↔◌, ℕ, List, Option, Contains, All, AllPairs};
ghost use Rattle.rcp_base.specs.IpPrefix.{IpPrefix};
ghost use Rattle.rcp_model.specs.Cells.{Cell};
ghost use Rattle.rcp_model.specs.Packing.{Group, groups};

/// The groups are of distinct values: prefixes with the same attribute octets stand in one group, and so do all that are
/// withdrawn. A group has exactly the prefixes of the cells with its value, and the value of each cell has its group.
pub fn each_value_has_one_group()
    ensures distinct { (cells : List Cell) → AllPairs (λ (a b : Group). a.0 ≢ b.0) (groups cells) }
    ensures exactly { (cells : List Cell)
        → All (λ (group : Group). (p : IpPrefix) → Contains group.1 p ↔ Contains cells (p, group.0)) (groups cells) }
    ensures each { (cells : List Cell) (p : IpPrefix) (value : Option (List ℕ)) → Contains cells (p, value)
        → (prefixes : List IpPrefix) × Contains (groups cells) (value, prefixes) }
{}
