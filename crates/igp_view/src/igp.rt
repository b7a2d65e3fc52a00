//! The view of the interior network.

ghost use Rattle.std.specs.Prelude.{◌≡◌, max, true, false, length, Some, IfOk, OnOk, OnErr};
ghost use Rattle.rcp_model.specs.LinkState.{LinkState, aged};
ghost use Rattle.rcp_model.specs.LinkStateUpdates.{faultless_lsas, left_out};
ghost use Rattle.rcp_model.specs.Edges.{edges_of};
ghost use Rattle.lsdb.specs.Databases.{Holds, empty};
ghost use Rattle.ospf_packet.specs.Framing.{at_start};
ghost use Rattle.igp_view.specs.Streams.{stream_after, lost_by, lsas_by, state_after};
ghost use Rattle.igp_view.specs.Igp.{IsOfSameRoster, CountsChange};

use crate::intake::take_piece;
use crate::views::{first_engine, first_view, links_of, members_of, renew};
use cost_rows::View;
use lsdb::Lsdb;
use ospf_packet::Framer;
use rcp_base::NoMemory;
use rcp_model::Edge;
use roster::Roster;
use spf_incr::TreeEngine;
use std::alloc::Global;
use std::marker::Model;
use std::sync::Arc;

/// What a piece of the stream brought.
#[derive(Clone, Copy, Debug, PartialEq, Eq)]
pub struct IgpGot {
    /// How many faultless router LSAs of the area, whatever became of them.
    pub installed: u64,
    /// How many faulty ones, a packet that is shorter than its count of LSAs among them.
    pub left_out: u64,
    /// Where the piece lost the framing: the place in the stream of a header that no packet has.
    pub lost: Option<u64>,
}

/// The link state of an area out of a stream of OSPF packets, and a view of its edges for the members of a roster.
#[derive(Drop)]
pub struct IgpView {
    alloc: Global,
    area: u32,
    links: Vec<Edge>,
    framer: Framer,
    is_lost: bool,
    lsdb: Lsdb,
    view: Arc<View>,
    engine: TreeEngine,
    changes: u64,
    is_spent: bool,
}

impl Model for IgpView {
    ghost use Rattle.std.specs.Prelude.{◌≡◌, false};
    ghost use Rattle.rcp_base.specs.OspfPackets.{part, front_of};
    ghost use Rattle.igp_view.specs.Streams.{stream_of};
    ghost use Rattle.igp_view.specs.Igp.{IgpOf, AreEdgesOf, AreRosterLinks};
    ghost use Rattle.igp_view.specs.Following.{IsEngineOf};

    ghost Value = { IgpOf };

    ghost view = { λ i. record { area = i.area; members = i.view.value.members; links = i.links.items; database = i.lsdb; stream = stream_of i.is_lost i.framer; edges = i.view.value.edges; changes = i.changes; spent = i.is_spent } };

    ghost invariant = { λ i. AreRosterLinks i.links.items × (i.is_spent ≡ false → (i.is_lost ≡ false → front_of i.framer.held ≡ part) × AreEdgesOf i.lsdb.state i.links.items i.view.value.edges × IsEngineOf i.engine i.view.value) };
}

impl IgpView {
    /// The view of a roster's links alone: no octet of the stream came, and the time is 0. `NoMemory` comes where there was no room
    /// for it.
    pub fn new(alloc: Global, roster: &Roster) -> Result<IgpView, NoMemory>
        ensures { IfOk result (λ igp. igp ≡ record { area = roster.now.area; members = roster.now.members; links = roster.now.links; database = empty; stream = Some at_start; edges = edges_of empty.state roster.now.links; changes = 0; spent = false }) }
    {
        let links = links_of(alloc, roster)?;
        let members = members_of(alloc, roster)?;
        let lsdb = Lsdb::new(alloc);
        let view = first_view(alloc, members.as_slice(), &lsdb, links.as_slice())?;
        let engine = first_engine(alloc, &view)?;
        Ok(IgpView {
            alloc,
            area: roster.area(),
            links,
            framer: Framer::new(alloc)?,
            is_lost: false,
            lsdb,
            view,
            engine,
            changes: 0,
            is_spent: false,
        })
    }

    /// Takes a piece of the stream at a time in seconds, after it did what `clock` does then. The router LSAs of the area in the packets
    /// that the piece completes are installed in their order; packets of other types and other areas are skipped. Once the framing is
    /// lost, pieces are ignored until `restart`.
    ///
    /// `NoMemory` comes where there was no room, and where the value is spent, which it is from then on. Where the edges
    /// stay, no view is built.
    pub fn octets(&mut self, piece: &[u8], now: u64) -> Result<IgpGot, NoMemory>
        ensures installed { IfOk result (λ got. got.installed ≡ length (faultless_lsas (lsas_by self.old.area self.old.stream piece.now))) }
        ensures left_out { IfOk result (λ got. got.left_out ≡ length (left_out (lsas_by self.old.area self.old.stream piece.now))) }
        ensures lost { IfOk result (λ got. got.lost ≡ lost_by self.old.stream piece.now) }
        ensures stream { OnOk result (self.new.stream ≡ stream_after self.old.stream piece.now) }
        ensures state { OnOk result ((state : LinkState) → Holds self.old.database.state state →
            Holds self.new.database.state (state_after self.old.area (max now self.old.database.moment) self.old.stream piece.now state)) }
        ensures time { OnOk result (self.new.database.moment ≡ max now self.old.database.moment) }
        ensures changes { OnOk result (CountsChange self.old self.new) }
        ensures roster { IsOfSameRoster self.old self.new }
        ensures fresh { OnOk result ((self.old.spent ≡ false) × (self.new.spent ≡ false)) }
        ensures spent { OnErr result (self.new.spent ≡ true) }
    {
        if self.is_spent {
            return Err(NoMemory);
        }
        self.is_spent = true;
        let went = tick(&mut self.lsdb, now);
        let got = take_piece(
            self.alloc,
            &mut self.is_lost,
            &mut self.framer,
            &mut self.lsdb,
            self.area,
            piece,
        )?;
        renew(
            self.alloc,
            may_change(went, &got),
            &mut self.view,
            &mut self.engine,
            &mut self.changes,
            &self.lsdb,
            &self.links,
        )?;
        self.is_spent = false;
        Ok(got)
    }

    /// Lets time pass: each instance whose age has reached MaxAge goes (RFC 2328 section 14). A time below the latest counts as the
    /// latest.
    ///
    /// `NoMemory` comes where there was no room, and where the value is spent, which it is from then on.
    pub fn clock(&mut self, now: u64) -> Result<(), NoMemory>
        ensures state { OnOk result ((state : LinkState) → Holds self.old.database.state state →
            Holds self.new.database.state (aged (max now self.old.database.moment) state)) }
        ensures time { OnOk result (self.new.database.moment ≡ max now self.old.database.moment) }
        ensures stream { self.new.stream ≡ self.old.stream }
        ensures changes { OnOk result (CountsChange self.old self.new) }
        ensures roster { IsOfSameRoster self.old self.new }
        ensures fresh { OnOk result ((self.old.spent ≡ false) × (self.new.spent ≡ false)) }
        ensures spent { OnErr result (self.new.spent ≡ true) }
    {
        if self.is_spent {
            return Err(NoMemory);
        }
        self.is_spent = true;
        let went = tick(&mut self.lsdb, now);
        renew(
            self.alloc,
            went,
            &mut self.view,
            &mut self.engine,
            &mut self.changes,
            &self.lsdb,
            &self.links,
        )?;
        self.is_spent = false;
        Ok(())
    }

    /// Begins a new stream: no octet of it came yet. The link state stays.
    pub fn restart(&mut self)
        ensures { self.new ≡ record self.old { stream = Some at_start } }
    {
        self.framer.restart();
        self.is_lost = false;
    }

    /// The view of the edges of the link state and of the roster's links, for the roster's members in their order. `NoMemory` comes
    /// where there was no room for one more owner of it, and where the value is spent.
    pub fn view(&self) -> Result<Arc<View>, NoMemory>
        ensures view { IfOk result (λ view. (state : LinkState) → Holds self.now.database.state state →
            view.value ≡ record { edges = edges_of state self.now.links; members = self.now.members }) }
        ensures edges { IfOk result (λ view. view.value.edges ≡ self.now.edges) }
        ensures kept { Holds self.now.database.state self.now.database.state }
        ensures fresh { OnOk result (self.now.spent ≡ false) }
    {
        let _time = self.lsdb.time();
        if self.is_spent {
            return Err(NoMemory);
        }
        Ok(self.view.clone()?)
    }

    /// How often the edges changed, at most 2^64 - 1.
    pub fn changes(&self) -> u64
        ensures { result ≡ self.now.changes }
    {
        self.changes
    }
}

/// Whether the edges may be others, where this says whether an instance went and this is what came.
fn may_change(went: bool, got: &IgpGot) -> bool
    ensures { result ≡ false → (went ≡ false) × (got.now.installed ≡ 0) }
{
    went || got.installed > 0
}

/// Lets a database's time pass, and says whether an instance went. A time below the latest counts as the latest.
fn tick(lsdb: &mut Lsdb, now: u64) -> bool
    ensures state { (state : LinkState) → Holds lsdb.old.state state → Holds lsdb.new.state (aged (max now lsdb.old.moment) state) }
    ensures time { lsdb.new.moment ≡ max now lsdb.old.moment }
    ensures stays { result ≡ false → aged (max now lsdb.old.moment) lsdb.old.state ≡ lsdb.old.state }
    ensures kept { Holds lsdb.old.state lsdb.old.state }
{
    let latest = now.max(lsdb.time());
    lsdb.clock(latest)
}
