//! What the canonical form has of each type of path attribute (RFC 4271 sections 4.3 and 5): which attributes, in which order
//! and with which flags. With the order of the types this is the whole canonical form.

ghost use Rattle.std.specs.Prelude.{◌≡◌, ◌≢◌, ℕ, false, ◌&&◌, [], ◌∷◌, List, Contains, map, filter, if◌then◌else◌};
ghost use Rattle.rcp_model.specs.Attributes.{Attribute, ORIGIN, AS_PATH, NEXT_HOP, MULTI_EXIT_DISC, LOCAL_PREF, ATOMIC_AGGREGATE, AGGREGATOR, COMMUNITIES, is_recognised, is_optional, is_transitive, is_partial, canonical};
ghost use Rattle.model_laws.specs.Forms.{of_type, with_flags};

/// Each attribute of a recognised type is sent on with its value and the flags of its type. AGGREGATOR and COMMUNITIES keep
/// the partial flag. A LOCAL_PREF of 100 stands in for one that is absent.
pub fn recognised_types_are_sent_on()
    ensures well_known { (list : List Attribute) (kind : ℕ)
        → Contains (ORIGIN ∷ AS_PATH ∷ NEXT_HOP ∷ ATOMIC_AGGREGATE ∷ []) kind
        → of_type kind (canonical list) ≡ map (with_flags 64) (of_type kind list) }
    ensures preference { (list : List Attribute) → of_type LOCAL_PREF list ≢ []
        → of_type LOCAL_PREF (canonical list) ≡ map (with_flags 64) (of_type LOCAL_PREF list) }
    ensures no_preference { (list : List Attribute) → of_type LOCAL_PREF list ≡ []
        → of_type LOCAL_PREF (canonical list) ≡ record { flags = 64; kind = LOCAL_PREF; value = 0 ∷ 0 ∷ 0 ∷ 100 ∷ [] } ∷ [] }
    ensures discriminator { (list : List Attribute)
        → of_type MULTI_EXIT_DISC (canonical list) ≡ map (with_flags 128) (of_type MULTI_EXIT_DISC list) }
    ensures partial { (list : List Attribute) (kind : ℕ) → Contains (AGGREGATOR ∷ COMMUNITIES ∷ []) kind
        → of_type kind (canonical list) ≡ map (λ a. with_flags (if is_partial a.flags then 224 else 192) a) (of_type kind list) }
{}

/// Of an unrecognised type the attributes that are optional and transitive are sent on, with the partial flag, and no others.
pub fn transitive_attributes_are_sent_on()
    ensures { (list : List Attribute) (kind : ℕ) → is_recognised kind ≡ false
        → of_type kind (canonical list)
        ≡ map (with_flags 224) (filter (λ a. is_optional a.flags && is_transitive a.flags) (of_type kind list)) }
{}
