//! The interior network as it changes.

ghost use Rattle.std.specs.Prelude.{◌≡◌, ◌+◌, ◌<◌, [], ◌∷◌, ◌++◌, length, replicate, pos, ◌+ℤ◌, IfOk, OnOk};
ghost use Rattle.feed_make.specs.Networks.{change_place, changed_link, lsa_after, content_of, first_sequence, id_of, point_to_point};

use crate::draws::Draws;
use crate::links::{LINKS, Link, draw_links};
use lsa_reader::{Lsa, LsaLink, POINT_TO_POINT};
use rcp_base::{NoMemory, RouterId};
use std::alloc::Global;
use std::marker::Model;

/// The router ID and BGP Identifier of the first router.
const FIRST_ID: u32 = 0x0a00_0001;

/// The least sequence number of an LSA (RFC 2328 section 12.1.6).
const FIRST_SEQUENCE: i32 = i32::MIN + 1;

/// The links, and for each router by how much the sequence number of its LSA rose. Contracts see the number of the feed, and how
/// many links changed.
#[derive(Drop)]
pub struct Network {
    number: u32,
    changes: u16,
    links: Vec<Link>,
    rises: [u16; 400],
}

impl Model for Network {
    ghost use Rattle.std.specs.Prelude.{◌≡◌, ◌≤◌};
    ghost use Rattle.feed_make.specs.Networks.{NetworkOf, links_after, all_rises};

    ghost Value = { NetworkOf };

    ghost view = { λ n. record { number = n.number; changes = n.changes } };

    ghost invariant = { λ n. (n.changes ≤ 10) × (n.links.items ≡ links_after n.number n.changes) × (n.rises ≡ all_rises n.number n.changes) };
}

impl Network {
    /// The network before its first change. `NoMemory` comes where there was no room for the links.
    pub fn new(alloc: Global, draws: &mut Draws) -> Result<Network, NoMemory>
        requires { draws.old.drawn ≡ 0 }
        ensures network { IfOk result (λ network. network ≡ record { number = draws.old.number; changes = 0 }) }
        ensures after { OnOk result (draws.new ≡ record draws.old { drawn = 1900 }) }
    {
        let number = draws.number();
        let links = draw_links(alloc, draws)?;
        Ok(Network {
            number,
            changes: 0,
            links,
            rises: zeros(),
        })
    }

    /// Gives a drawn link a drawn cost, and answers its two routers.
    pub fn change(&mut self, draws: &mut Draws) -> [u16; 2]
        requires feed { draws.old.number ≡ self.old.number }
        requires drawn { draws.old.drawn ≡ change_place self.old.changes }
        requires few { self.old.changes < 10 }
        ensures routers { result ≡ (changed_link self.old.number self.old.changes).from ∷ (changed_link self.old.number self.old.changes).to ∷ [] }
        ensures network { self.new ≡ record self.old { changes = self.old.changes + 1 } }
        ensures after { draws.new ≡ record draws.old { drawn = change_place (self.old.changes + 1) } }
    {
        let place = usize::from(draws.draw(LINKS));
        let cost = 1 + draws.draw(100);
        let link = Link {
            cost,
            ..self.links[place]
        };
        self.links[place] = link;
        self.rises[usize::from(link.from)] += 1;
        self.rises[usize::from(link.to)] += 1;
        self.changes += 1;
        [link.from, link.to]
    }

    /// The LSA of a router. `NoMemory` comes where there was no room for its links.
    pub fn lsa(&self, alloc: Global, router: u16) -> Result<Lsa, NoMemory>
        requires { router < 400 }
        ensures lsa { IfOk result (λ lsa. lsa ≡ lsa_after self.now.number self.now.changes router) }
        ensures few { IfOk result (λ lsa. length lsa.content < 1000) }
    {
        let rises = self.rises[usize::from(router)];
        Ok(Lsa {
            router: RouterId(id_of(router)),
            age: 1,
            sequence: sequence(rises),
            checksum: 0,
            links: content(alloc, &self.links, router)?,
        })
    }
}

/// The sequence number that rose so often.
fn sequence(rises: u16) -> i32
    ensures { result ≡ first_sequence +ℤ pos rises }
{
    FIRST_SEQUENCE + i32::from(rises)
}

/// No sequence number rose yet.
fn zeros() -> [u16; 400]
    ensures { result ≡ replicate 400 0 }
{
    [0; 400]
}

/// The router ID and BGP Identifier of a router.
pub fn id_of(router: u16) -> u32
    ensures { result ≡ id_of router }
{
    FIRST_ID + u32::from(router)
}

/// The links of a router, in the order of the list: it is the first or the second router of each.
fn content(alloc: Global, links: &[Link], router: u16) -> Result<Vec<LsaLink>, NoMemory>
    ensures { IfOk result (λ content. content.items ≡ content_of router links.now) }
{
    let mut content = Vec::new(alloc);
    for link in links {
        add_link(&mut content, router, link)?;
    }
    Ok(content)
}

/// Adds a link as the router has it in its LSA, where it is one of the two.
fn add_link(content: &mut Vec<LsaLink>, router: u16, link: &Link) -> Result<(), NoMemory>
    ensures { OnOk result (content.new.items ≡ content.old.items ++ content_of router (link.now ∷ [])) }
{
    if link.from == router {
        return Ok(content.push(point_to_point(link.to, link.cost))?);
    }
    if link.to == router {
        return Ok(content.push(point_to_point(link.from, link.cost))?);
    }
    Ok(())
}

fn point_to_point(router: u16, cost: u16) -> LsaLink
    ensures { result ≡ point_to_point router cost }
{
    LsaLink {
        id: id_of(router),
        kind: POINT_TO_POINT,
        metric: cost,
    }
}
