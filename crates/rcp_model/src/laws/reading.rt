//! Octets have one reading as messages (RFC 4271 section 4), whatever they are and however they are cut, and what is
//! written is read again.

ghost use Rattle.std.specs.Prelude.{◌≡◌, ℕ, ◌+◌, ◌<◌, ◌≤◌, false, List, ◌∷◌, ◌++◌, length, drop, filter, not, ◌==◌, Some, None};
ghost use Rattle.std.specs.Int.{Width};
ghost use Rattle.std.specs.List.{concat, flat_map, All, AllByRecursion};
ghost use Rattle.rcp_base.specs.IpPrefix.{IpPrefix, IsPrefix, prefix_octets};
ghost use Rattle.rcp_model.specs.Messages.{is_outside, least_length, greatest_length, type_field, IsMessage, IsReading, messages_in, rest_of, message_octets};
ghost use Rattle.rcp_base.specs.Maps.{is_among};
ghost use Rattle.rcp_model.specs.Attributes.{attributes_in, attributes_fault};
ghost use Rattle.rcp_model.specs.Updates.{update_fault, changes_of, sections_of, prefixes_in, update_octets, Table, withdraw_all, announce_all, after_message};

/// Each list of octets is whole messages and then a rest in front of which no whole message stands.
pub fn octets_are_messages()
    ensures { (octets : List ℕ) → IsReading octets (messages_in octets) (rest_of octets) }
{}

/// No other messages and rest are so.
pub fn no_second_reading()
    ensures { (octets : List ℕ) (messages : List (List ℕ)) (rest : List ℕ) → IsReading octets messages rest
        → (messages ≡ messages_in octets) × (rest ≡ rest_of octets) }
{}

/// A whole message in front is read first, and then what follows it.
pub fn whole_message_comes_first()
    ensures { (message more : List ℕ) → IsMessage message
        → (messages_in (message ++ more) ≡ message ∷ messages_in more) × (rest_of (message ++ more) ≡ rest_of more) }
{}

/// Whole messages one after another are read as these, and then what follows them.
pub fn whole_messages_come_first()
    ensures { (messages : List (List ℕ)) (more : List ℕ) → AllByRecursion IsMessage messages
        → (messages_in (concat messages ++ more) ≡ messages ++ messages_in more)
        × (rest_of (concat messages ++ more) ≡ rest_of more) }
{}

/// Octets that come later change no message that is whole already: octets that come in pieces are read as if they came
/// at once.
pub fn later_octets_are_read_behind_the_rest()
    ensures { (octets later : List ℕ)
        → (messages_in (octets ++ later) ≡ messages_in octets ++ messages_in (rest_of octets ++ later))
        × (rest_of (octets ++ later) ≡ rest_of (rest_of octets ++ later)) }
{}

/// A body of a length that its type may have is written as a whole message of that type and with that body.
pub fn written_message_is_whole()
    ensures whole { (kind : ℕ) (body : List ℕ) → 19 + length body ≤ 4096 → is_outside 1 4 kind ≡ false
        → is_outside (least_length kind) (greatest_length kind) (19 + length body) ≡ false
        → IsMessage (message_octets kind body) }
    ensures kind { (kind : ℕ) (body : List ℕ) → type_field (message_octets kind body) ≡ kind }
    ensures body { (kind : ℕ) (body : List ℕ) → drop 19 (message_octets kind body) ≡ body }
{}

/// An UPDATE of at most 4,096 octets that is written is a whole message of type 2, and its sections are those that were
/// written.
pub fn written_update_is_read_again()
    ensures whole { (withdrawn announced : List IpPrefix) (attributes : List ℕ)
        → length (update_octets withdrawn attributes announced) ≤ 4096
        → IsMessage (update_octets withdrawn attributes announced) }
    ensures kind { (withdrawn announced : List IpPrefix) (attributes : List ℕ)
        → type_field (update_octets withdrawn attributes announced) ≡ 2 }
    ensures sections { (withdrawn announced : List IpPrefix) (attributes : List ℕ)
        → length (update_octets withdrawn attributes announced) ≤ 4096
        → sections_of (drop 19 (update_octets withdrawn attributes announced)) ≡ Some (record {
          withdrawn = flat_map prefix_octets withdrawn;
          attributes = attributes;
          nlri = flat_map prefix_octets announced;
        }) }
{}

/// An UPDATE that is written is faultless where its attributes are, and changes what it was written for.
pub fn written_update_is_faultless()
    ensures faultless { (withdrawn announced : List IpPrefix) (attributes : List ℕ) (width : Width)
        → length (update_octets withdrawn attributes announced) ≤ 4096
        → AllByRecursion IsPrefix withdrawn → AllByRecursion IsPrefix announced
        → attributes_fault width (not (length (flat_map prefix_octets announced) == 0)) attributes ≡ None
        → update_fault width (drop 19 (update_octets withdrawn attributes announced)) ≡ None }
    ensures changes { (withdrawn announced : List IpPrefix) (attributes : List ℕ)
        → length (update_octets withdrawn attributes announced) ≤ 4096
        → AllByRecursion IsPrefix withdrawn → AllByRecursion IsPrefix announced
        → changes_of (drop 19 (update_octets withdrawn attributes announced)) ≡ record {
          withdrawn = filter (λ p. not (is_among announced p)) withdrawn;
          announced = announced;
          attributes = attributes_in attributes;
        } }
{}

/// Prefixes that are written one after another are read again, in their order.
pub fn written_prefixes_are_read_again()
    ensures { (prefixes : List IpPrefix) → AllByRecursion IsPrefix prefixes
        → prefixes_in (flat_map prefix_octets prefixes) ≡ prefixes }
{}

/// Each prefix that is read has a length of 0 to 32, and no bit after its length is set.
pub fn read_prefixes_are_in_form()
    ensures { (octets : List ℕ) → All (λ o. o < 256) octets → AllByRecursion IsPrefix (prefixes_in octets) }
{}

/// An UPDATE that is written takes its withdrawn prefixes from a table and then sets the announced ones to its attribute
/// octets.
pub fn written_update_does_what_it_says()
    ensures { (withdrawn announced : List IpPrefix) (attributes : List ℕ) (table : Table)
        → length (update_octets withdrawn attributes announced) ≤ 4096
        → AllByRecursion IsPrefix withdrawn → AllByRecursion IsPrefix announced
        → after_message (update_octets withdrawn attributes announced) table
        ≡ announce_all attributes announced (withdraw_all withdrawn table) }
{}
