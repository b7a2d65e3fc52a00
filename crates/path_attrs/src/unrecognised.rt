//! Attributes of a type that isn't recognised (RFC 4271, section 5).

ghost use Rattle.std.specs.Prelude.{◌≡◌, false};
ghost use Rattle.rcp_model.specs.Attributes.{is_recognised};

/// An attribute that is sent on as it came, marked as partial.
#[derive(Debug, Drop)]
pub struct Unrecognised {
    pub kind: u8,
    /// The value as it was read.
    pub octets: Vec<u8>,
    ghost other_type: { is_recognised kind ≡ false },
}
