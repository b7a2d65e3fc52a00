//! The decision process (RFC 4271 sections 9.1.1 and 9.1.2.2): what its filters leave, and which route of it is chosen.

ghost use Rattle.std.specs.Prelude.{◌≡◌, ◌≢◌, ℕ, ◌↔◌, false, List, [], Option, Some, None, Contains, IsSome};
ghost use Rattle.rcp_model.specs.Decision.{Contender, unbeaten, has_higher_preference, has_shorter_path, has_lower_origin, has_lower_exit, goes_before, tied, is_nearer, choice, IsNearest};

/// Each filter leaves something of a list that isn't empty. So do the four one after another.
pub fn a_filter_leaves_something()
    ensures preference { (list : List Contender) → list ≢ [] → unbeaten has_higher_preference list ≢ [] }
    ensures path { (list : List Contender) → list ≢ [] → unbeaten has_shorter_path list ≢ [] }
    ensures origin { (list : List Contender) → list ≢ [] → unbeaten has_lower_origin list ≢ [] }
    ensures exit { (list : List Contender) → list ≢ [] → unbeaten has_lower_exit list ≢ [] }
    ensures all { (list : List Contender) → list ≢ [] → tied list ≢ [] }
{}

/// The four filters one after another are one: by the higher preference, where that is the same by the shorter path,
/// then by the lower origin, and then by the lower MULTI_EXIT_DISC among routes of one neighbouring AS.
pub fn the_filters_are_one_order()
    ensures { (list : List Contender) → tied list ≡ unbeaten goes_before list }
{}

/// The tied routes are those of the list before which none of the list goes.
pub fn a_tied_route_is_unbeaten()
    ensures { (list : List Contender) (a : Contender)
        → Contains (tied list) a ↔ (Contains list a × ((b : Contender) → Contains list b → goes_before b a ≡ false)) }
{}

/// There is no choice exactly where there is no route. Else it is a tied one.
pub fn a_choice_is_tied()
    ensures none { (slot : ℕ) (cost : ℕ → Option ℕ) (list : List Contender)
        → (choice slot cost list ≡ None) ↔ (list ≡ []) }
    ensures some { (slot : ℕ) (cost : ℕ → Option ℕ) (list : List Contender)
        → list ≢ [] → (a : Contender) × Contains (tied list) a × (choice slot cost list ≡ Some a.slot) }
{}

/// A router chooses its own route where that is tied.
pub fn the_own_route_goes_first()
    ensures { (slot : ℕ) (cost : ℕ → Option ℕ) (list : List Contender) (a : Contender)
        → Contains (tied list) a → a.slot ≡ slot → choice slot cost list ≡ Some slot }
{}

/// Else it chooses a tied route than which no tied one has the lower pair of cost and BGP Identifier.
pub fn the_nearest_is_chosen()
    ensures { (slot : ℕ) (cost : ℕ → Option ℕ) (list : List Contender)
        → ((a : Contender) → Contains (tied list) a → a.slot ≢ slot)
        → list ≢ []
        → (a : Contender) × (choice slot cost list ≡ Some a.slot) × IsNearest cost (tied list) a }
{}

/// Where the identifiers are distinct and each route has a cost there is one such route.
pub fn one_route_is_nearest()
    ensures { (slot : ℕ) (cost : ℕ → Option ℕ) (list : List Contender) (a : Contender)
        → ((b c : Contender) → Contains list b → Contains list c → b.id ≡ c.id → b.slot ≡ c.slot)
        → ((b : Contender) → Contains list b → IsSome (cost b.slot))
        → ((b : Contender) → Contains (tied list) b → b.slot ≢ slot)
        → IsNearest cost (tied list) a
        → choice slot cost list ≡ Some a.slot }
{}
