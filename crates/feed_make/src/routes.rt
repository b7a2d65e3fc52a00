//! The UPDATEs that announce the groups of prefixes.

ghost use Rattle.std.specs.Prelude.{◌≡◌, ◌+◌, ◌*◌, ◌<◌, ◌≤◌, [], ◌∷◌, length, IfOk, OnOk};
ghost use Rattle.feed_make.specs.Routes.{group_place, first_of, second_of, third_of, attributes, group_prefix, prefixes, announcement};

use crate::draws::Draws;
use crate::links::ROUTERS;
use crate::network::id_of;
use bgp_msg::update_message;
use rcp_base::{NoMemory, Prefix};
use std::alloc::Global;

/// How many prefixes a group has.
const PREFIXES: u32 = 50;

/// The routers that announce a group, no two of which are one.
pub fn announcers(draws: &mut Draws, group: u16) -> [u16; 3]
    requires group { group < 400 }
    requires drawn { draws.old.drawn ≡ group_place group }
    ensures routers { result ≡ first_of draws.old.number group ∷ second_of draws.old.number group ∷ third_of draws.old.number group ∷ [] }
    ensures after { draws.new ≡ record draws.old { drawn = group_place group + 3 } }
{
    let first = draws.draw(ROUTERS);
    let second = (first + 100 + draws.draw(100)) % ROUTERS;
    let third = (first + 250 + draws.draw(100)) % ROUTERS;
    [first, second, third]
}

/// The UPDATE by which a router announces a group.
pub fn announcement(
    alloc: Global,
    draws: &mut Draws,
    group: u16,
    router: u16,
) -> Result<Vec<u8>, NoMemory>
    requires group { group < 400 }
    requires router { router < 400 }
    requires drawn { draws.old.drawn < 10000 }
    ensures message { IfOk result (λ message. message.items ≡ announcement draws.old.number draws.old.drawn group router) }
    ensures after { OnOk result (draws.new ≡ record draws.old { drawn = draws.old.drawn + 5 }) }
    ensures short { IfOk result (λ message. length message.items ≤ 4096) }
{
    let attrs = attributes(draws, group, router);
    let prefixes = prefixes(alloc, group)?;
    let message = update_message(alloc, &[], &attrs, &prefixes)?;
    Ok(message)
}

/// The attributes of a route of a group (RFC 4271 section 4.3, RFC 1997), with five drawn numbers.
fn attributes(draws: &mut Draws, group: u16, router: u16) -> [u8; 43]
    requires group { group < 400 }
    requires router { router < 400 }
    requires drawn { draws.old.drawn < 10000 }
    ensures attributes { result ≡ attributes draws.old.number draws.old.drawn group router }
    ensures after { draws.new ≡ record draws.old { drawn = draws.old.drawn + 5 } }
{
    let [a0, a1] = (64_601 + draws.draw(8)).to_be_bytes();
    let pref = 100 + 10 * draws.draw(2);
    let med = draws.draw(4);
    let [b0, b1] = (64_700 + draws.draw(100)).to_be_bytes();
    let [c0, c1] = (64_800 + draws.draw(100)).to_be_bytes();
    let [i0, i1, i2, i3] = id_of(router).to_be_bytes();
    let [p0, p1] = pref.to_be_bytes();
    let [m0, m1] = med.to_be_bytes();
    let [g0, g1] = group.to_be_bytes();
    [
        64, 1, 1, 0, 64, 2, 8, 2, 3, a0, a1, b0, b1, c0, c1, 64, 3, 4, i0, i1, i2, i3, 128, 4, 4,
        0, 0, m0, m1, 64, 5, 4, 0, 0, p0, p1, 192, 8, 4, 253, 232, g0, g1,
    ]
}

/// The prefixes of a group.
fn prefixes(alloc: Global, group: u16) -> Result<Vec<Prefix>, NoMemory>
    requires { group < 400 }
    ensures { IfOk result (λ list. list.items ≡ prefixes group) }
{
    let mut list = Vec::new(alloc);
    for k in 0..PREFIXES {
        list.push(prefix(group, k))?;
    }
    Ok(list)
}

/// A prefix of a group.
fn prefix(group: u16, k: u32) -> Prefix
    requires group { group < 400 }
    requires few { k < 50 }
    ensures { result ≡ group_prefix group k }
{
    match Prefix::new(0x1000_0000 + (PREFIXES * u32::from(group) + k) * 256, 24) {
        Some(prefix) => prefix,
        None => unreachable!(),
    }
}
