//! Readings of the decision (RFC 4271 section 9.1.2.2) that are wrong, each with a small contest whose outcome shows it.

ghost use Rattle.std.specs.Prelude.{◌≡◌, [], ◌∷◌, Some, None};
ghost use Rattle.meaning_cases.specs.Examples.{A, C};
ghost use Rattle.rcp_model.specs.Decision.{tied, choice};
ghost use Rattle.rcp_model.specs.RouteServer.{announced_at, slot_cost, candidates, offer};
ghost use Rattle.meaning_cases.specs.Contests.{F, chain, chain_domain, C_is_nearer, C_is_alone, route_by, prefix, attributes_by, by_A, by_A_and_C};

/// Of two routes that are alike, B chooses C's, which is nearer, though A has the lower identifier. With ties broken by
/// identifier before cost it would be A's, in slot 0.
pub fn cost_goes_before_the_identifier()
    ensures { choice 1 (slot_cost C_is_nearer chain 1) (route_by 0 A 65001 0 ∷ route_by 2 C 65001 0 ∷ []) ≡ Some 2 }
{}

/// A's route loses to C's lower MULTI_EXIT_DISC of the same neighbouring AS, and the third, of another AS, loses to none.
/// With MULTI_EXIT_DISC compared across ASes C's alone would be left.
pub fn exits_are_compared_within_an_as()
    ensures { tied (route_by 0 A 65001 20 ∷ route_by 2 C 65001 10 ∷ route_by 3 F 65002 50 ∷ [])
        ≡ route_by 2 C 65001 10 ∷ route_by 3 F 65002 50 ∷ [] }
{}

/// C is in another partition than A, so that A's route is none of its candidates, and it is offered nothing, while B is
/// offered A's route. With candidates of another partition C would be offered it too.
pub fn candidates_are_of_one_partition()
    ensures none { candidates chain_domain (announced_at by_A prefix) C_is_alone 2 ≡ [] }
    ensures alone { offer chain_domain (announced_at by_A prefix) C_is_alone 2 ≡ None }
    ensures linked { offer chain_domain (announced_at by_A prefix) C_is_alone 1 ≡ Some (attributes_by 1) }
{}

/// A and C announce routes that are alike. Each keeps its own and is offered nothing, while B is offered the nearer one.
/// With its own route offered back A would be given what it announced.
pub fn an_own_route_is_not_offered_back()
    ensures first { offer chain_domain (announced_at by_A_and_C prefix) C_is_nearer 0 ≡ None }
    ensures last { offer chain_domain (announced_at by_A_and_C prefix) C_is_nearer 2 ≡ None }
    ensures between { offer chain_domain (announced_at by_A_and_C prefix) C_is_nearer 1 ≡ Some (attributes_by 3) }
{}
