// Laws of link states and their edges. Each is the contract of a function that does nothing.
ghost use Rattle.std.specs.Prelude.{◌≡◌, ◌⊎◌, ◌↔◌, ℕ, List, Contains, true, false};
ghost use Rattle.rcp_base.specs.declared.names.Edge.{Edge};
ghost use Rattle.rcp_model.specs.LinkState.{LsaHeader, RouterLsa, LinkState, is_more_recent, installed, aged};
ghost use Rattle.rcp_model.specs.Edges.{edges_of};
ghost use Rattle.lsdb.specs.Databases.{empty};
ghost use Rattle.lsdb.specs.Links.{IsRising};
ghost use Rattle.lsdb.specs.TwoWay.{IsMap, IsTwoWay};

/// Of two instances not each is more recent than the other.
pub fn one_is_more_recent()
    ensures { (a b : LsaHeader) → is_more_recent a b ≡ true → is_more_recent b a ≡ false }
{}

/// A link state has one instance of each router, whatever comes.
pub fn one_instance_of_each_router()
    ensures at_first { IsMap empty.state }
    ensures installed { (now : ℕ) (lsa : RouterLsa) (state : LinkState) → IsMap state → IsMap (installed now lsa state) }
    ensures aged { (now : ℕ) (state : LinkState) → IsMap state → IsMap (aged now state) }
{}

/// The edges are those between routers of which each lists the other, at the least metric, and the fixed ones.
pub fn edges_are_two_way()
    ensures rising { (state : LinkState) (fixed : List Edge) → IsRising (edges_of state fixed) }
    ensures members { (state : LinkState) (fixed : List Edge) (edge : Edge) → IsMap state →
        (Contains (edges_of state fixed) edge ↔ (IsTwoWay state edge ⊎ Contains fixed edge)) }
{}
