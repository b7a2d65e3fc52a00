ghost use Rattle.std.specs.Prelude.{◌≡◌, false, Some, None, IfOk};

use crate::octets::Octets;
use crate::route::Route;
use rcp_base::{NoMemory, Prefix};
use std::marker::Model;
use std::sync::Arc;

/// What a router is given at a prefix: the path attributes of the route that is chosen for it, or none where it keeps its own
/// or there is none. `generation` counts the times that the router's seat was claimed. Each offer keeps that its attributes are those of a
/// route that isn't long, and so fit an UPDATE. Contracts see the record of the fields.
#[derive(Debug, Drop)]
pub struct Offer {
    pub generation: u64,
    pub prefix: Prefix,
    pub attrs: Option<Arc<Octets>>,
}

impl Model for Offer {
    ghost use Rattle.rcp_model.specs.Routes.{OfferFields, IsOffer};
    ghost use Rattle.std.specs.Prelude.{option_map};

    ghost Value = { OfferFields };

    ghost view = { λ o. record {
      generation = o.generation;
      prefix = o.prefix;
      attrs = option_map (λ attrs. attrs.value) o.attrs;
    } };

    ghost invariant = { λ o. IsOffer (option_map (λ attrs. attrs.value) o.attrs) };
}

impl Offer {
    /// The offer of a route's attributes, which shares their octets with the route. The route isn't long.
    ///
    /// `NoMemory` comes where the count of those that share the octets is full.
    pub fn announcing(generation: u64, prefix: Prefix, route: &Route) -> Result<Offer, NoMemory>
        requires { route.now.long ≡ false }
        ensures { IfOk result (λ offer. offer ≡ record { generation = generation; prefix = prefix; attrs = Some route.now.attrs }) }
    {
        let Ok(attrs) = route.attrs.clone() else {
            return Err(NoMemory);
        };
        Ok(Offer {
            generation,
            prefix,
            attrs: Some(attrs),
        })
    }

    /// The offer of nothing.
    pub fn withdrawing(generation: u64, prefix: Prefix) -> Offer
        ensures { result ≡ record { generation = generation; prefix = prefix; attrs = None } }
    {
        Offer {
            generation,
            prefix,
            attrs: None,
        }
    }
}
