//! Which edges the interior network has (RFC 2328 sections 12.4.1.1 and 16.1).

ghost use Rattle.std.specs.Prelude.{◌↔◌, ◌⊎◌, List, Contains, AllPairs, IsTrue};
ghost use Rattle.rcp_base.specs.declared.names.Edge.{Edge};
ghost use Rattle.rcp_model.specs.LinkState.{LinkState};
ghost use Rattle.rcp_model.specs.Edges.{is_edge_before, edges_of};
ghost use Rattle.model_laws.specs.LearnedEdges.{IsLearned};

/// The edges are those of the roster and those that are learned, and no others: an edge is learned where the kept LSAs of
/// its two routers list each other by point-to-point links, at the least metric that the LSA of its first router lists.
/// They stand by first router, then by second router, then by cost, each once.
pub fn edges_are_fixed_or_learned()
    ensures members { (state : LinkState) (fixed : List Edge) (edge : Edge)
        → Contains (edges_of state fixed) edge ↔ (Contains fixed edge ⊎ IsLearned state edge) }
    ensures rising { (state : LinkState) (fixed : List Edge)
        → AllPairs (λ (a b : Edge). IsTrue (is_edge_before a b)) (edges_of state fixed) }
{}
