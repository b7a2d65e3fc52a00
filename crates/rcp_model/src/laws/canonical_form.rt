//! The canonical form of path attributes (RFC 4271 sections 4.3 and 5): what it keeps, and that it is read as itself.

ghost use Rattle.std.specs.Prelude.{◌≡◌, ◌≢◌, ℕ, ◌<◌, Bool, true, List, ◌∷◌, [], map, Some, None, unwrap_or};
ghost use Rattle.std.specs.Int.{Width};
ghost use Rattle.std.specs.List.{All};
ghost use Rattle.std.specs.List.Sorted.{IsNonDecreasingBy};
ghost use Rattle.rcp_model.specs.Attributes.{Attribute, LOCAL_PREF, is_recognised, attributes_in, value_of, attributes_fault, has_route, canonical, canonical_octets};
ghost use Rattle.rcp_model.specs.Routes.{route_of, IsRoute};

/// The canonical form has the types in order, the value of each recognised type as it was read, and LOCAL_PREF always:
/// 100 where it was absent.
pub fn canonical_form_keeps_values()
    ensures rising { (list : List Attribute) → IsNonDecreasingBy (λ a. a.kind) (canonical list) }
    ensures values { (list : List Attribute) (kind : ℕ) → is_recognised kind ≡ true → kind ≢ LOCAL_PREF
        → value_of kind (canonical list) ≡ value_of kind list }
    ensures preference { (list : List Attribute)
        → value_of LOCAL_PREF (canonical list) ≡ Some (unwrap_or (value_of LOCAL_PREF list) (0 ∷ 0 ∷ 0 ∷ 100 ∷ [])) }
{}

/// The canonical form of what is in canonical form is the same.
pub fn canonical_form_is_its_own()
    ensures { (octets : List ℕ) → All (λ o. o < 256) octets
        → canonical (canonical (attributes_in octets)) ≡ canonical (attributes_in octets) }
{}

/// Canonical octets are read as attributes with the types and values of the canonical form, whose canonical form and
/// octets are the same again. (A value of more than 255 octets is read with the flag of the long length, which counts
/// for nothing.)
pub fn canonical_octets_are_read_as_themselves()
    ensures octets { (octets : List ℕ) → All (λ o. o < 256) octets
        → All (λ o. o < 256) (canonical_octets (attributes_in octets)) }
    ensures types { (octets : List ℕ) → All (λ o. o < 256) octets
        → map (λ a. a.kind) (attributes_in (canonical_octets (attributes_in octets)))
        ≡ map (λ a. a.kind) (canonical (attributes_in octets)) }
    ensures values { (octets : List ℕ) → All (λ o. o < 256) octets
        → map (λ a. a.value) (attributes_in (canonical_octets (attributes_in octets)))
        ≡ map (λ a. a.value) (canonical (attributes_in octets)) }
    ensures form { (octets : List ℕ) → All (λ o. o < 256) octets
        → canonical (attributes_in (canonical_octets (attributes_in octets))) ≡ canonical (attributes_in octets) }
    ensures fixed { (octets : List ℕ) → All (λ o. o < 256) octets
        → canonical_octets (attributes_in (canonical_octets (attributes_in octets)))
        ≡ canonical_octets (attributes_in octets) }
{}

/// Every field of a route follows from its canonical octets and the local AS.
pub fn route_follows_from_its_octets()
    ensures route { (octets : List ℕ) (width : Width) (as_number : ℕ) → All (λ o. o < 256) octets
        → route_of width as_number (attributes_in (canonical_octets (attributes_in octets)))
        ≡ route_of width as_number (attributes_in octets) }
    ensures complete { (octets : List ℕ) → All (λ o. o < 256) octets
        → has_route (attributes_in (canonical_octets (attributes_in octets))) ≡ has_route (attributes_in octets) }
{}

/// The route of attributes with ORIGIN, AS_PATH and NEXT_HOP keeps what each route keeps.
pub fn route_is_in_form()
    ensures { (octets : List ℕ) (width : Width) (as_number : ℕ) → All (λ o. o < 256) octets
        → has_route (attributes_in octets) ≡ true → IsRoute (route_of width as_number (attributes_in octets)) }
{}

/// The canonical octets of faultless attributes are faultless, as those of an UPDATE with NLRI or without.
pub fn canonical_octets_are_faultless()
    ensures { (width : Width) (nlri : Bool) (octets : List ℕ) → All (λ o. o < 256) octets
        → attributes_fault width nlri octets ≡ None
        → attributes_fault width nlri (canonical_octets (attributes_in octets)) ≡ None }
{}

/// The attributes of a faultless UPDATE with NLRI have ORIGIN, AS_PATH and NEXT_HOP.
pub fn faultless_announcement_has_a_route()
    ensures { (width : Width) (octets : List ℕ) → attributes_fault width true octets ≡ None
        → has_route (attributes_in octets) ≡ true }
{}
