//! Laws of egresses. Each is the contract of a function that does nothing.

ghost use Rattle.std.specs.Prelude.{◌≡◌, ℕ, List, Option, Bool, Contains, ◌↔◌};
ghost use Rattle.rcp_base.specs.declared.names.Member.{Member};
ghost use Rattle.rcp_model.specs.Decision.{Contender, choice};
ghost use Rattle.egress_rank.specs.Egresses.{IsMarked, IsEgress, AreTiedOf, AreReached};

/// There is one egress among tied slots, whether marks or a list say which they are.
pub fn one_egress()
    ensures { (members : List Member) (cost : ℕ → Option ℕ) (slot : ℕ) (marks : List Bool) (list : List ℕ) (a b : Option ℕ) →
        ((e : ℕ) → IsMarked marks e ↔ Contains list e) →
        IsEgress members cost slot (IsMarked marks) a → IsEgress members cost slot (Contains list) b → a ≡ b }
{}

/// Among the slots that the filters leave of a list of candidates, each of which is reached, the egress is the decision's choice.
pub fn egress_is_the_choice()
    ensures marks { (members : List Member) (cost : ℕ → Option ℕ) (slot : ℕ) (list : List Contender) (marks : List Bool) (egress : Option ℕ) →
        AreTiedOf list (IsMarked marks) → AreReached members cost list →
        IsEgress members cost slot (IsMarked marks) egress → egress ≡ choice slot cost list }
    ensures slots { (members : List Member) (cost : ℕ → Option ℕ) (slot : ℕ) (list : List Contender) (slots : List ℕ) (egress : Option ℕ) →
        AreTiedOf list (Contains slots) → AreReached members cost list →
        IsEgress members cost slot (Contains slots) egress → egress ≡ choice slot cost list }
{}
