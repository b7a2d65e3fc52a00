//! Interior costs (RFC 2328 section 16.1) are the least sums over walks of edges, whatever the edges are: cycles of
//! cost 0, edges from a router to itself and links of one direction among them.

ghost use Rattle.std.specs.Prelude.{◌≡◌, ℕ, ◌+◌, ◌≤◌, ◌↔◌, IsTrue, List, Option, Some, Contains, IfSome, IsSomeAnd};
ghost use Rattle.std.specs.Cmp.{IsEquivalence};
ghost use Rattle.rcp_base.specs.declared.names.Edge.{Edge};
ghost use Rattle.rcp_model.specs.Costs.{Walk, IsCost, IsTwoWay, cost, is_reached};

/// The cost that is computed is the sum of some walk, and no walk has a lower one. It is none where there is no walk.
pub fn cost_is_least()
    ensures { (edges : List Edge) (u v : ℕ) → IsCost edges u v (cost edges u v) }
{}

/// Two routers have one cost from the one to the other.
pub fn no_second_cost()
    ensures { (edges : List Edge) (u v : ℕ) (a b : Option ℕ)
        → IsCost edges u v a → IsCost edges u v b → a ≡ b }
{}

/// A router has the cost 0 to itself.
pub fn own_cost_is_zero()
    ensures { (edges : List Edge) (u : ℕ) → cost edges u u ≡ Some 0 }
{}

/// A cost is no higher than those to a third router and on from there.
pub fn no_dearer_than_over_a_third()
    ensures { (edges : List Edge) (u w v m n : ℕ)
        → cost edges u w ≡ Some m → cost edges w v ≡ Some n → IsSomeAnd (cost edges u v) (λ c. c ≤ m + n) }
{}

/// A cost is no higher than that of an edge.
pub fn no_dearer_than_an_edge()
    ensures { (edges : List Edge) (edge : Edge)
        → Contains edges edge → IsSomeAnd (cost edges edge.from edge.to) (λ c. c ≤ edge.cost) }
{}

/// Costs depend only on which edges there are, and not on their order or how often they are listed.
pub fn order_of_edges_is_free()
    ensures { (edges others : List Edge) → ((edge : Edge) → Contains edges edge ↔ Contains others edge)
        → (u v : ℕ) → cost edges u v ≡ cost others u v }
{}

/// Costs from a router that no edge can lower are the least: the router's own is 0, each is the sum of a walk, and each
/// edge leads to a cost that is no higher than that of its beginning and its own together.
pub fn settled_costs_are_least()
    ensures { (edges : List Edge) (root : ℕ) (costs : ℕ → Option ℕ)
        → ((v : ℕ) → IfSome (costs v) (Walk edges root v))
        → costs root ≡ Some 0
        → ((edge : Edge) (n : ℕ) → Contains edges edge → costs edge.from ≡ Some n
        → IsSomeAnd (costs edge.to) (λ m. m ≤ n + edge.cost))
        → (v : ℕ) → IsCost edges root v (costs v) }
{}

/// A router is reached exactly where there is a walk to it.
pub fn reached_is_a_walk()
    ensures { (edges : List Edge) (u v : ℕ)
        → IsTrue (is_reached edges u v) ↔ ((sum : ℕ) × Walk edges u v sum) }
{}

/// Where each edge has one in the other direction, whatever it costs, partitions don't overlap.
pub fn partitions_do_not_overlap()
    ensures { (edges : List Edge) → IsTwoWay edges → IsEquivalence (is_reached edges) }
{}
