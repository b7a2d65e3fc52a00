//! The flags of an attribute (RFC 4271, section 4.3).

ghost use Rattle.std.specs.Prelude.{◌≡◌, ◌*◌, ◌/◌, ◌%◌};
ghost use Rattle.rcp_model.specs.Attributes as model;

/// The attribute is optional.
pub const OPTIONAL: u8 = 0x80;
/// An optional attribute is sent on by who doesn't know it; a well-known one has this flag always.
pub const TRANSITIVE: u8 = 0x40;
/// A speaker on the way didn't know the optional attribute.
pub const PARTIAL: u8 = 0x20;
/// The length has two octets.
pub const EXTENDED: u8 = 0x10;

/// The flags that a type has always.
pub const CATEGORY: u8 = OPTIONAL | TRANSITIVE;

/// The optional and transitive flags among all flags.
#[tactic(auto, using(crate::proofs::FlagBits::category_bits))]
pub fn category(flags: u8) -> u8
    ensures { result ≡ flags / 64 % 4 * 64 }
{
    flags & CATEGORY
}

/// Whether the attribute is optional.
#[tactic(auto, using(crate::proofs::FlagBits::optional_bit))]
pub fn is_optional(flags: u8) -> bool
    ensures { result ≡ model.is_optional flags }
{
    flags & OPTIONAL != 0
}

/// Whether an optional attribute is sent on by who doesn't know it.
#[tactic(auto, using(crate::proofs::FlagBits::transitive_bit))]
pub fn is_transitive(flags: u8) -> bool
    ensures { result ≡ model.is_transitive flags }
{
    flags & TRANSITIVE != 0
}

/// Whether a speaker on the way didn't know the attribute.
#[tactic(auto, using(crate::proofs::FlagBits::partial_bit))]
pub fn is_partial(flags: u8) -> bool
    ensures { result ≡ model.is_partial flags }
{
    flags & PARTIAL != 0
}

/// Whether the length has two octets.
#[tactic(auto, using(crate::proofs::FlagBits::extended_bit))]
pub fn is_extended(flags: u8) -> bool
    ensures { result ≡ model.is_extended flags }
{
    flags & EXTENDED != 0
}
