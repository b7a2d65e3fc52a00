//! Engines: the costs from the members of a roster to all routers, kept up to date as one edge after another comes or goes.

use crate::graph::Graph;
use rcp_base::{NoMemory, RouterId, Slot};
use rcp_model::Edge;

/// What keeps the least costs from each member to each router of a graph, and follows the graph edge by edge.
///
/// Contracts speak of its members, of its costs, of whether want of memory has spent it, and of the edges that it is over:
/// over them its costs are the least sums over all walks. A new engine is made by its type's own function, over any graph.
pub trait CostEngine {
    ghost use Rattle.std.specs.Prelude.{◌≡◌, ℕ, Bool, true, false, ◌↔◌, List, Option, Some, Err, Contains, IfOk, OnOk, OnErr};
    ghost use Rattle.rcp_base.specs.declared.names.Member.{Member};
    ghost use Rattle.rcp_base.specs.declared.names.Edge.{Edge};
    ghost use Rattle.rcp_model.specs.Graphs.{IsGraph};
    ghost use Rattle.cost_rows.specs.Engines.{graph_before, cost_from, AreChanges};

    /// The members, by slot.
    ghost members: { Self → List Member };

    /// The cost from a slot to a router.
    ghost costs: { Self → ℕ → ℕ → Option ℕ };

    /// Whether want of memory has spent it.
    ghost is_spent: { Self → Bool };

    /// That it is over these edges: it was made over them, or brought up to them.
    ghost IsOver: { Self → List Edge → Type 0 };

    /// Follows a graph to which one edge was added, or from which one was removed; `graph` is the graph after that. The engine
    /// is over the graph before it, unless it is spent. The answer lists each pair of slot and router whose cost changed once,
    /// by slot and then by router. Afterwards the engine is over `graph`.
    ///
    /// `NoMemory` comes where there was no room for the costs or the pairs. The engine is spent then: each later call answers
    /// `NoMemory`, and a new engine takes its place.
    fn change(
        &mut self,
        graph: &Graph,
        edge: Edge,
        added: bool,
    ) -> Result<Vec<(Slot, RouterId)>, NoMemory>
        requires over { is_spent self.old ≡ false → IsOver self.old (graph_before edge added graph.now) }
        requires kept { is_spent self.old ≡ false → IsGraph (graph_before edge added graph.now) }
        requires changed { is_spent self.old ≡ false → ((added ≡ true) ↔ Contains graph.now edge) }
        ensures changes { IfOk result (λ pairs. AreChanges (costs self.old) (costs self.new) pairs.items) }
        ensures over { OnOk result (IsOver self.new graph.now) }
        ensures members { members self.new ≡ members self.old }
        ensures unspent { OnOk result ((is_spent self.old ≡ false) × (is_spent self.new ≡ false)) }
        ensures spent { OnErr result (is_spent self.new ≡ true) };

    /// The cost from a member to a router, `None` where there is no walk to it, and where the slot is past the last member's.
    fn cost(&self, from: Slot, to: RouterId) -> Option<u32>
        ensures { result ≡ costs self.now from to };

    /// Over some edges each cost is the least sum over all walks of them.
    ghost exact: { (engine : Self) (edges : List Edge) → IsOver engine edges
        → (slot router : ℕ) → costs engine slot router ≡ cost_from edges (members engine) slot router };
}
