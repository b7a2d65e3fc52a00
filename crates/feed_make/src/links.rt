//! The links between the routers.

ghost use Rattle.std.specs.Prelude.{◌≡◌, ℕ, ◌+◌, ◌*◌, ◌<◌, length, IfOk, OnOk, OnErr};
ghost use Rattle.feed_make.specs.Networks.{ring_link, other_link, first_links, with_cost};
ghost use Rattle.feed_make.specs.Draws.{draw};

use crate::draws::Draws;
use rcp_base::NoMemory;
use std::alloc::Global;
use std::marker::Model;

/// How many routers there are.
pub const ROUTERS: u16 = 400;

/// How many links there are.
pub const LINKS: u16 = 900;

/// A link of two routers, by their numbers from 0, and its cost.
#[derive(Clone, Copy, Debug, PartialEq, Eq)]
pub struct Link {
    pub from: u16,
    pub to: u16,
    pub cost: u16,
}

impl Model for Link {
    ghost use Rattle.feed_make.specs.Networks.{Link as Shown};

    ghost Value = { Shown };

    ghost view = { λ l. record { from = l.from; to = l.to; cost = l.cost } };

    ghost inverse = { λ l. record { from = l.from; to = l.to; cost = l.cost } };
}

/// A ring, and then 500 links between any two routers.
pub fn draw_links(alloc: Global, draws: &mut Draws) -> Result<Vec<Link>, NoMemory>
    requires { draws.old.drawn ≡ 0 }
    ensures links { IfOk result (λ links. links.items ≡ first_links draws.old.number) }
    ensures after { OnOk result (draws.new ≡ record draws.old { drawn = 1900 }) }
{
    let mut links = Vec::new(alloc);
    for i in 0..ROUTERS {
        links.push(ring_link(draws, i))?;
    }
    for _ in 0..LINKS - ROUTERS {
        links.push(other_link(draws))?;
    }
    Ok(links)
}

/// The link of a router to the next one.
fn ring_link(draws: &mut Draws, i: u16) -> Link
    requires router { i < 400 }
    requires drawn { draws.old.drawn ≡ i }
    ensures link { result ≡ ring_link draws.old.number i }
    ensures after { draws.new ≡ record draws.old { drawn = i + 1 } }
{
    Link {
        from: i,
        to: (i + 1) % ROUTERS,
        cost: 1 + draws.draw(100),
    }
}

/// A link of two routers that are drawn.
fn other_link(draws: &mut Draws) -> Link
    requires { draws.old.drawn < 2000 }
    ensures link { (k : ℕ) → draws.old.drawn ≡ 400 + 3 * k → result ≡ other_link draws.old.number k }
    ensures after { draws.new ≡ record draws.old { drawn = draws.old.drawn + 3 } }
{
    let from = draws.draw(ROUTERS);
    let to = (from + 1 + draws.draw(ROUTERS - 1)) % ROUTERS;
    let cost = 1 + draws.draw(100);
    Link { from, to, cost }
}
