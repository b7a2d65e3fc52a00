//! ORIGIN: where a route came from (RFC 4271, section 5.1.1).

ghost use Rattle.std.specs.Prelude.{◌≡◌, ◌≤◌};
ghost use Rattle.path_attrs.specs.Origins.{origin_octet};

/// Where a route came from.
#[derive(Clone, Copy, Debug, PartialEq, Eq)]
pub enum Origin {
    /// From inside the AS.
    Igp = 0,
    /// By the protocol EGP.
    Egp = 1,
    /// By other means.
    Incomplete = 2,
}

impl Origin {
    /// The origin of an octet.
    pub fn from_octet(octet: u8) -> Origin
        requires { octet ≤ 2 }
        ensures { origin_octet result ≡ octet }
    {
        match octet {
            0 => Origin::Igp,
            1 => Origin::Egp,
            _ => Origin::Incomplete,
        }
    }

    /// The octet of an origin.
    pub fn octet(self) -> u8
        ensures { result ≡ origin_octet self }
    {
        self as u8
    }
}
