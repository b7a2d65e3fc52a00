//! Packets of router LSAs (RFC 2328 sections A.3.1, A.3.5 and A.4.2).

ghost use Rattle.std.specs.Prelude.{◌≡◌, ◌-◌, ◌<◌, ◌^◌, ◌++◌, length, All, IfOk, OnOk};
ghost use Rattle.std.specs.List.{concat};
ghost use Rattle.rcp_base.specs.declared.kinds.Kind.TheVariants.{Links};
ghost use Rattle.feed_make.specs.Checksums.{lsa_octets};
ghost use Rattle.feed_make.specs.Feeds.{packet_octets, packet_header, lsas};

use crate::network::Network;
use lsa_reader::{Lsa, write};
use rcp_base::NoMemory;
use std::alloc::Global;

/// The packet's router ID, 10.255.0.1.
const VIEWER: u32 = 0x0aff_0001;

/// The most octets of an LSA: 24, and 12 for each of 1,000 links.
const MOST_OCTETS: usize = 12_024;

/// The packet of the LSAs of these routers.
pub fn packet_of(alloc: Global, network: &Network, routers: &[u16]) -> Result<Vec<u8>, NoMemory>
    requires members { All (λ router. router < 400) routers.now }
    requires few { length routers.now < 2 ^ 16 }
    requires short { length (concat (lsas network.now.number network.now.changes routers.now)) < 2 ^ 16 - 28 }
    ensures { IfOk result (λ packet. packet.items ≡ packet_octets (lsas network.now.number network.now.changes routers.now)) }
{
    let mut lsas = Vec::new(alloc);
    for router in routers {
        let lsa = network.lsa(alloc, *router)?;
        add_lsa(&mut lsas, &lsa)?;
    }
    let mut packet = Vec::from_slice(alloc, &header_of(lsas.len() as u16, routers.len() as u16))?;
    packet.extend_from_slice(&lsas)?;
    Ok(packet)
}

/// Adds the octets of an LSA.
fn add_lsa(octets: &mut Vec<u8>, lsa: &Lsa) -> Result<(), NoMemory>
    requires few { length lsa.now.content < 1000 }
    requires age { lsa.now.header.age ≡ 1 }
    ensures { OnOk result (octets.new.items ≡ octets.old.items ++ lsa_octets lsa.now) }
{
    let mut out = [0; MOST_OCTETS];
    match write(lsa, &mut out) {
        Some(len) => Ok(octets.extend_from_slice(&out[..len])?),
        None => unreachable!(),
    }
}

/// What stands before the LSAs: version 2, a Link State Update, its length, router and area, no authentication, and how many LSAs
/// there are.
fn header_of(len: u16, count: u16) -> [u8; 28]
    requires { len < 2 ^ 16 - 28 }
    ensures { result ≡ packet_header len count }
{
    let [l0, l1] = (28 + len).to_be_bytes();
    let [r0, r1, r2, r3] = VIEWER.to_be_bytes();
    let [c0, c1] = count.to_be_bytes();
    [
        2, 4, l0, l1, r0, r1, r2, r3, 0, 0, 0, 0, 0, 0, 0, 0, 0, 0, 0, 0, 0, 0, 0, 0, 0, 0, c0, c1,
    ]
}
