//! Laws of reading and writing together.

ghost use Rattle.std.specs.Prelude.{◌≡◌, ℕ, ◌<◌, Bool, List, None};
ghost use Rattle.std.specs.List.{All};
ghost use Rattle.rcp_model.specs.Attributes.{attributes_fault, number_width};
ghost use Rattle.rcp_model.specs.Routes.{route_of};
ghost use Rattle.path_attrs.specs.Readings.{read_of, written_of};

/// What is written of attributes that were read has no fault, and is read as attributes of which the same is written and
/// the same route is made. (`read` takes it where it has at most 4,073 octets.)
pub fn written_is_read_again()
    ensures faultless { (octets : List ℕ) (nlri : Bool) → All (λ o. o < 256) octets
        → attributes_fault number_width nlri octets ≡ None → attributes_fault number_width nlri (written_of octets) ≡ None }
    ensures octets { (octets : List ℕ) → All (λ o. o < 256) octets → written_of (written_of octets) ≡ written_of octets }
    ensures route { (octets : List ℕ) (local_as : ℕ) → All (λ o. o < 256) octets
        → route_of number_width local_as (read_of (written_of octets)) ≡ route_of number_width local_as (read_of octets) }
{}
