//! The candidates of a router for a prefix, its choice among them and what it is offered.

ghost use Rattle.std.specs.Prelude.{◌≡◌, ◌≢◌, ℕ, ◌<◌, ◌↔◌, List, [], Some, None, Contains, AllPairs, IsSome};
ghost use Rattle.rcp_base.specs.declared.names.Member.{Member};
ghost use Rattle.rcp_base.specs.declared.names.Edge.{Edge};
ghost use Rattle.rcp_model.specs.Decision.{Contender, tied, IsNearest};
ghost use Rattle.rcp_model.specs.RouteServer.{Domain, Announced, slot_cost, candidates, choice_of, offer, IsCandidate};

/// The candidates are the members with a usable announcement of the prefix and a cost from the router, in roster order.
pub fn candidates_are_usable_and_reached()
    ensures exact { (domain : Domain) (announced : Announced) (edges : List Edge) (slot : ℕ) (a : Contender)
        → Contains (candidates domain announced edges slot) a ↔ IsCandidate domain announced edges slot a }
    ensures reached { (domain : Domain) (announced : Announced) (edges : List Edge) (slot : ℕ) (a : Contender)
        → Contains (candidates domain announced edges slot) a → IsSome (slot_cost edges domain.members slot a.slot) }
    ensures in_order { (domain : Domain) (announced : Announced) (edges : List Edge) (slot : ℕ)
        → AllPairs (λ (a b : Contender). a.slot < b.slot) (candidates domain announced edges slot) }
{}

/// A router has no choice exactly where it has no candidate.
pub fn no_choice_without_a_candidate()
    ensures { (domain : Domain) (announced : Announced) (edges : List Edge) (slot : ℕ)
        → (choice_of domain announced edges slot ≡ None) ↔ (candidates domain announced edges slot ≡ []) }
{}

/// Where the members' BGP Identifiers are distinct, the choice of a router whose own route isn't tied is the one tied
/// candidate than which none that is tied is nearer.
pub fn one_candidate_is_chosen()
    ensures { (domain : Domain) (announced : Announced) (edges : List Edge) (slot : ℕ) (a : Contender)
        → AllPairs (λ (m n : Member). m.bgp_id ≢ n.bgp_id) domain.members
        → ((b : Contender) → Contains (tied (candidates domain announced edges slot)) b → b.slot ≢ slot)
        → IsNearest (slot_cost edges domain.members slot) (tied (candidates domain announced edges slot)) a
        → choice_of domain announced edges slot ≡ Some a.slot }
{}

/// A router is offered what its choice announces, where the choice is another router, and else nothing.
pub fn an_offer_is_of_another_router()
    ensures { (domain : Domain) (announced : Announced) (edges : List Edge) (slot : ℕ) (octets : List ℕ)
        → (offer domain announced edges slot ≡ Some octets)
        ↔ ((chosen : ℕ) × (choice_of domain announced edges slot ≡ Some chosen) × (chosen ≢ slot)
        × (announced chosen ≡ Some octets)) }
{}
