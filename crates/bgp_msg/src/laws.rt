//! Laws of reading and writing together. Each is the contract of a function that does nothing.

ghost use Rattle.std.specs.Prelude.{◌≡◌, ℕ, ◌<◌, ◌≤◌, ◌^◌, Bool, true, false, List, ◌∷◌, ◌++◌, [], length, drop, Some, None, if◌then◌else◌};
ghost use Rattle.std.specs.List.{AllByRecursion, flat_map};
ghost use Rattle.rcp_base.specs.IpPrefix.{IpPrefix, IsPrefix, prefix_octets};
ghost use Rattle.rcp_model.specs.Messages.{FaultOf, fault, type_field, IsMessage, messages_in, notification_octets};
ghost use Rattle.rcp_model.specs.Updates.{sections_of, prefixes_in, prefixes_fault, update_octets};
ghost use Rattle.rcp_model.specs.Opens.{OpenFields, open_fields, open_octets, open_fault, is_short_hold};
ghost use Rattle.bgp_msg.specs.Opened.{IsOffer, fault_but_identifier, is_behind_identifier};
ghost use Rattle.bgp_msg.specs.Written.{keepalive_octets};

/// A KEEPALIVE that is written is read again, whatever follows it.
pub fn written_keepalive_is_read_again()
    ensures whole { IsMessage keepalive_octets }
    ensures kind { type_field keepalive_octets ≡ 4 }
    ensures body { drop 19 keepalive_octets ≡ [] }
    ensures again { (more : List ℕ) → messages_in (keepalive_octets ++ more) ≡ keepalive_octets ∷ messages_in more }
{}

/// A NOTIFICATION that is written is read again, whatever follows it, where its data has at most 4,075 octets.
pub fn written_notification_is_read_again()
    ensures whole { (fault : FaultOf) → length fault.content ≤ 4075 → IsMessage (notification_octets fault) }
    ensures kind { (fault : FaultOf) → type_field (notification_octets fault) ≡ 3 }
    ensures body { (fault : FaultOf) → drop 19 (notification_octets fault) ≡ fault.code ∷ fault.sub ∷ fault.content }
    ensures again { (fault : FaultOf) (more : List ℕ) → length fault.content ≤ 4075
        → messages_in (notification_octets fault ++ more) ≡ notification_octets fault ∷ messages_in more }
{}

/// An UPDATE that is written is read again, whatever follows it, with its sections and their prefixes.
pub fn written_update_is_read_again()
    ensures whole { (withdrawn announced : List IpPrefix) (attributes : List ℕ)
        → length (update_octets withdrawn attributes announced) ≤ 4096
        → IsMessage (update_octets withdrawn attributes announced) }
    ensures kind { (withdrawn announced : List IpPrefix) (attributes : List ℕ)
        → type_field (update_octets withdrawn attributes announced) ≡ 2 }
    ensures sections { (withdrawn announced : List IpPrefix) (attributes : List ℕ)
        → length (update_octets withdrawn attributes announced) ≤ 4096
        → sections_of (drop 19 (update_octets withdrawn attributes announced)) ≡ Some (record {
          withdrawn = flat_map prefix_octets withdrawn;
          attributes = attributes;
          nlri = flat_map prefix_octets announced;
        }) }
    ensures prefixes { (prefixes : List IpPrefix) → AllByRecursion IsPrefix prefixes
        → (prefixes_fault (flat_map prefix_octets prefixes) ≡ None) × (prefixes_in (flat_map prefix_octets prefixes) ≡ prefixes) }
    ensures again { (withdrawn announced : List IpPrefix) (attributes more : List ℕ)
        → length (update_octets withdrawn attributes announced) ≤ 4096
        → messages_in (update_octets withdrawn attributes announced ++ more) ≡ update_octets withdrawn attributes announced ∷ messages_in more }
{}

/// An OPEN that is written is read again, whatever follows it, by a reader who wants its AS. Its one fault is a hold time
/// of 1 or 2 seconds.
pub fn written_open_is_read_again()
    ensures whole { (offer : OpenFields) → IsMessage (open_octets offer) }
    ensures kind { (offer : OpenFields) → type_field (open_octets offer) ≡ 1 }
    ensures fields { (offer : OpenFields) → IsOffer offer → open_fields (drop 19 (open_octets offer)) ≡ offer }
    ensures fault { (offer : OpenFields) (knows : ℕ → Bool) → IsOffer offer → knows offer.id ≡ true
        → open_fault knows offer.as_number (drop 19 (open_octets offer)) ≡ (if is_short_hold offer.hold then Some (fault 2 6 []) else None) }
    ensures again { (offer : OpenFields) (more : List ℕ) → messages_in (open_octets offer ++ more) ≡ open_octets offer ∷ messages_in more }
{}

/// Where the BGP Identifiers are known that are wanted, the first fault of an OPEN is another identifier exactly where
/// there is no fault otherwise, or one that comes after it: those of the parameters. Else it is the fault otherwise.
pub fn identifier_comes_before_parameters()
    ensures { (knows : ℕ → Bool) (as_number : ℕ) (body : List ℕ)
        → open_fault knows as_number body
        ≡ (if is_behind_identifier (fault_but_identifier as_number body)
        then (if knows (open_fields body).id then fault_but_identifier as_number body else Some (fault 2 3 []))
        else fault_but_identifier as_number body) }
{}
