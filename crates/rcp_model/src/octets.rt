ghost use Rattle.std.specs.Prelude.{◌≡◌, IfOk};

use rcp_base::NoMemory;
use std::alloc::Global;
use std::marker::Model;

/// A list of octets that doesn't change, as the path attributes of a route. Contracts see the list.
#[derive(Debug, Drop)]
pub struct Octets {
    octets: Vec<u8>,
}

impl Model for Octets {
    ghost use Rattle.std.specs.Prelude.{List, ℕ};

    ghost Value = { List ℕ };

    ghost view = { λ o. o.octets.items };
}

impl Octets {
    /// A copy of the octets. `NoMemory` where there is no room for it.
    pub fn from_slice(alloc: Global, octets: &[u8]) -> Result<Octets, NoMemory>
        ensures { IfOk result (λ copied. copied ≡ octets.now) }
    {
        match Vec::from_slice(alloc, octets) {
            Ok(octets) => Ok(Octets { octets }),
            Err(_) => Err(NoMemory),
        }
    }

    pub fn as_slice(&self) -> &[u8]
        ensures { result.now ≡ self.now }
    {
        self.octets.as_slice()
    }
}
