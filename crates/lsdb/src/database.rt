ghost use Rattle.std.specs.Prelude.{◌≡◌, ◌≢◌, ◌≤◌, ◌+◌, ◌↔◌, length, All, IsTrue, Some, None, IfOk, OnErr, OnOk};
ghost use Rattle.rcp_model.specs.LinkState.{LinkState, Newer, installation, installed, aged, most_routers};
ghost use Rattle.rcp_model.specs.Edges.{edges_of};
ghost use Rattle.rcp_model.specs.Graphs.{routers_in};
ghost use Rattle.std.specs.List.Sorted.{IsPermutation};
ghost use Rattle.lsdb.specs.Links.{links_in, IsInOrder, IsRising, IsCheap};
ghost use Rattle.lsdb.specs.Answers.{installation_of};
ghost use Rattle.lsdb.specs.Databases.{Changes, Holds, empty};

use crate::instance::{Instance, header};
use crate::links::{add_links, edges_in};
use crate::recency::{Installed, MAX_AGE, against};
use lsa_reader::Lsa;
use rcp_base::{NoMemory, RouterId};
use rcp_model::Edge;
use std::alloc::Global;
use std::collections::BTreeMap;
use std::marker::Model;

/// How many routers may have an instance.
const MOST_ROUTERS: usize = 2048;

/// The link-state database of one area. Contracts see a link state and the latest time that `clock` was given, in seconds.
#[derive(Debug, Drop)]
pub struct Lsdb {
    routers: BTreeMap<RouterId, Instance>,
    moment: u64,
    alloc: Global,
}

impl Model for Lsdb {
    ghost use Rattle.lsdb.specs.Databases.{Database, IsKept};

    ghost Value = { Database };

    ghost view = { λ l. record { state = record { routers = l.routers.entries }; moment = l.moment } };

    ghost invariant = { λ l. IsKept l.routers.entries };
}

impl Lsdb {
    /// A database without LSAs, at time 0.
    pub fn new(alloc: Global) -> Lsdb
        ensures { result ≡ empty }
    {
        Lsdb {
            routers: BTreeMap::new(alloc),
            moment: 0,
            alloc,
        }
    }

    /// Puts an LSA in at the latest time that `clock` was given, or at time 0, and returns what became of it (RFC 2328
    /// section 13.1). An age above MaxAge counts as MaxAge.
    ///
    /// - `Same`: an instance of the router is kept, and they are the same. It stays, with its time of installation.
    /// - `Older`: an instance is kept, and it is more recent.
    /// - `Flushed`: the LSA's age is MaxAge, and none is kept or the LSA is more recent. None is kept then.
    /// - `Dropped`: none is kept, the age is below MaxAge, and 2,048 other routers have one.
    /// - `Newer`: else. It is kept.
    ///
    /// `NoMemory` only where the answer would be `Newer` and there is no room for it; the database is as before then. It
    /// takes time in the logarithm of the number of routers.
    pub fn install(&mut self, lsa: Lsa, now: u64) -> Result<Installed, NoMemory>
        requires { now ≡ self.old.moment }
        ensures answer { IfOk result (λ answer. (state : LinkState) → Holds self.old.state state →
            installation_of answer ≡ installation now lsa state) }
        ensures after { OnOk result ((state : LinkState) → Holds self.old.state state →
            Holds self.new.state (installed now lsa state)) }
        ensures moment { self.new.moment ≡ self.old.moment }
        ensures err { OnErr result (self.new ≡ self.old) }
        ensures no_memory { OnErr result ((state : LinkState) → Holds self.old.state state → installation now lsa state ≡ Newer) }
    {
        let answer = judge(&self.routers, &lsa, now);
        match answer {
            Installed::Newer => {
                keep(&mut self.routers, lsa, now)?;
            }
            Installed::Flushed => {
                remove(&mut self.routers, lsa.router);
            }
            Installed::Same | Installed::Older | Installed::Dropped => {}
        }
        Ok(answer)
    }

    /// Gives the database the time, in seconds, which isn't below an earlier one: each instance whose age has reached
    /// MaxAge goes (RFC 2328 section 14). True exactly where one went. It goes over all instances, and takes no memory.
    pub fn clock(&mut self, now: u64) -> bool
        requires { self.old.moment ≤ now }
        ensures after { (state : LinkState) → Holds self.old.state state → Holds self.new.state (aged now state) }
        ensures went { (state : LinkState) → Holds self.old.state state → (IsTrue result ↔ (aged now state ≢ state)) }
        ensures moment { self.new.moment ≡ now }
    {
        let before = self.routers.len();
        self.routers
            .retain(|_router, instance| instance.header_at(now).age < MAX_AGE);
        self.moment = now;
        self.routers.len() < before
    }

    /// The last time that `clock` was given, in seconds, or 0.
    pub fn time(&self) -> u64
        ensures time { result ≡ self.now.moment }
        ensures kept { Holds self.now.state self.now.state }
    {
        self.moment
    }

    /// The point-to-point links that both ends list, each from either end with the least metric of parallel ones there,
    /// and the fixed edges besides (RFC 2328 section 16.1): by `from`, `to` and `cost`, each once. They name at most
    /// 2,048 routers beside those of the fixed edges, and cost at most 65,535 where the fixed ones do.
    ///
    /// `NoMemory` where there is no room for them. For E links and fixed edges in all it takes about E log E steps.
    pub fn edges(&self, fixed: &[Edge]) -> Result<Vec<Edge>, NoMemory>
        ensures edges { IfOk result (λ edges. (state : LinkState) → Holds self.now.state state →
            edges.items ≡ edges_of state fixed.now) }
        ensures rising { IfOk result (λ edges. IsRising edges.items) }
        ensures few { IfOk result (λ edges. length (routers_in edges.items) ≤ most_routers + length (routers_in fixed.now)) }
        ensures cheap { IfOk result (λ edges. All IsCheap fixed.now → All IsCheap edges.items) }
        ensures kept { Holds self.now.state self.now.state }
    {
        let links = links_in(self.alloc, &self.routers)?;
        edges_in(self.alloc, links.as_slice(), fixed)
    }
}

/// Keeps an LSA in the place of the one before.
fn keep(routers: &mut BTreeMap<RouterId, Instance>, lsa: Lsa, now: u64) -> Result<(), NoMemory>
    ensures ok { OnOk result (Changes lsa.key (Some (record { lsa = lsa; since = now })) routers.old.entries routers.new.entries) }
    ensures err { OnErr result (routers.new.entries ≡ routers.old.entries) }
{
    let router = lsa.router;
    routers.insert(router, Instance { lsa, since: now })?;
    Ok(())
}

/// Keeps no LSA of a router.
fn remove(routers: &mut BTreeMap<RouterId, Instance>, router: RouterId)
    ensures { Changes router None routers.old.entries routers.new.entries }
{
    let _ = routers.remove(&router);
}

/// The point-to-point links of all routers, in order.
fn links_in(alloc: Global, routers: &BTreeMap<RouterId, Instance>) -> Result<Vec<Edge>, NoMemory>
    ensures order { IfOk result (λ links. IsInOrder links.items) }
    ensures links { IfOk result (λ links. IsPermutation (links_in routers.now.entries) links.items) }
    ensures cheap { IfOk result (λ links. All IsCheap links.items) }
{
    let mut links = Vec::new(alloc);
    for (router, instance) in routers {
        add_links(&mut links, *router, instance.lsa.links.as_slice())?;
    }
    links.sort_unstable();
    Ok(links)
}

/// What becomes of an LSA at a time.
fn judge(routers: &BTreeMap<RouterId, Instance>, lsa: &Lsa, now: u64) -> Installed
    ensures { installation_of result ≡ installation now lsa.now (record { routers = routers.now.entries }) }
{
    match routers.get(&lsa.router) {
        Some(instance) => against(&header(lsa, 0), &instance.header_at(now)),
        None if lsa.age >= MAX_AGE => Installed::Flushed,
        None if routers.len() >= MOST_ROUTERS => Installed::Dropped,
        None => Installed::Newer,
    }
}
