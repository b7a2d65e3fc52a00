//! The link state: octets of its stream, and time. The shards learn of the edges where they changed.

ghost use Rattle.std.specs.Prelude.{◌≡◌, ◌≤◌, ◌<◌, ◌-◌, ◌^◌, ◌++◌, false, true, ℕ, List, [], Some, IfOk, OnOk, OnErr};
ghost use Rattle.rcp_base.specs.declared.kinds.Kind.TheVariants as kind;
ghost use Rattle.rcp_base.specs.Feed.{OutRecord};
ghost use Rattle.rcp_model.specs.Costs.{IsTwoWay};
ghost use Rattle.igp_view.specs.Igp.{IgpOf, AreEdgesOf};
ghost use Rattle.lsdb.specs.Databases.{Holds, empty};
ghost use Rattle.ospf_packet.specs.Framing.{at_start};
ghost use Rattle.rcp_model.specs.Edges.{edges_of};
ghost use Rattle.rcp_model.specs.ServerRibs.{Links as LinksEvent};
ghost use Rattle.rcs_shards.specs.Servers.{edges_in, acted};
ghost use Rattle.platform_core.specs.Following.{AllHave, IsFollowed, Links};

use crate::output::Outputs;
use cost_rows::View;
use igp_view::IgpView;
use rcp_base::NoMemory;
use rcs_shards::Shards;
use roster::Roster;
use std::alloc::Global;
use std::marker::Model;
use std::sync::Arc;

/// The view of the interior network, and whether the framing of its stream is lost. Contracts see what an `IgpView` is.
#[derive(Drop)]
pub struct LinkView {
    igp: IgpView,
    /// Where it is lost, what comes is ignored.
    is_lost: bool,
}

impl Model for LinkView {
    ghost use Rattle.std.specs.Prelude.{◌≡◌, false, is_none};
    ghost use Rattle.igp_view.specs.Igp.{IgpOf, AreEdgesOf};

    ghost Value = { IgpOf };

    ghost view = { λ l. l.igp };

    ghost invariant = { λ l. l.igp.spent ≡ false → l.is_lost ≡ is_none l.igp.stream };
}

impl LinkView {
    /// No octet of the stream came, and the time is 0.
    pub fn new(alloc: Global, roster: &Roster) -> Result<LinkView, NoMemory>
        ensures { IfOk result (λ links. links ≡ record { area = roster.now.area; members = roster.now.members; links = roster.now.links; database = empty; stream = Some at_start; edges = edges_of empty.state roster.now.links; changes = 0; spent = false }) }
    {
        Ok(LinkView {
            igp: IgpView::new(alloc, roster)?,
            is_lost: false,
        })
    }

    /// The view.
    pub fn view(&self) -> Result<Arc<View>, NoMemory>
        ensures edges { IfOk result (λ view. view.value.edges ≡ self.now.edges) }
        ensures members { IfOk result (λ view. view.value.members ≡ self.now.members) }
        ensures edges_are { OnOk result (AreEdgesOf self.now.database.state self.now.links self.now.edges) }
        ensures held { Holds self.now.database.state self.now.database.state }
    {
        self.igp.view()
    }

    /// Octets of the stream come, at the latest time. Where they lose the framing that is put out. The shards learn of the edges, if
    /// these changed.
    pub fn take_octets(
        &mut self,
        shards: &mut Shards,
        octets: &[u8],
        time: u64,
        out: &mut Outputs,
    ) -> Result<(), NoMemory>
        requires followed { IsFollowed self.old shards.old time }
        requires links { IsTwoWay shards.old.roster.links }
        ensures followed { OnOk result (IsFollowed self.new shards.new time) }
        ensures links { OnOk result ((more : List OutRecord) × (out.new ≡ out.old ++ more) × Links octets.now kind.Links time self.old self.new shards.old shards.new more) }
        ensures roster { shards.new.roster ≡ shards.old.roster }
        ensures two_way { IsTwoWay (edges_in shards.old.shards) → IsTwoWay (edges_in shards.new.shards) }
    {
        if self.is_lost {
            return Ok(());
        }
        let before = self.igp.changes();
        let got = self.igp.octets(octets, time)?;
        self.is_lost = got.lost.is_some();
        follow(&self.igp, shards, before)?;
        out.add_lost(got.lost)
    }

    /// Time passes. The shards learn of the edges, if these changed.
    pub fn pass(&mut self, shards: &mut Shards, time: u64) -> Result<(), NoMemory>
        requires followed { (before : ℕ) × IsFollowed self.old shards.old before × (before ≤ time) }
        requires links { IsTwoWay shards.old.roster.links }
        ensures followed { OnOk result (IsFollowed self.new shards.new time) }
        ensures links { OnOk result ((body : List ℕ) → Links body kind.Time time self.old self.new shards.old shards.new []) }
        ensures roster { shards.new.roster ≡ shards.old.roster }
        ensures two_way { IsTwoWay (edges_in shards.old.shards) → IsTwoWay (edges_in shards.new.shards) }
    {
        let before = self.igp.changes();
        self.igp.clock(time)?;
        follow(&self.igp, shards, before)
    }
}

/// The shards take the view, unless they have its edges: so many changes were counted before, and a count below its last value
/// would have risen.
fn follow(igp: &IgpView, shards: &mut Shards, before: u64) -> Result<(), NoMemory>
    requires members { igp.now.members ≡ shards.old.roster.members }
    requires same { igp.now.changes ≡ before → before < 2 ^ 64 - 1 → AllHave igp.now.edges shards.old.shards }
    ensures after { OnOk result (shards.new ≡ acted (LinksEvent igp.now.edges) shards.old) }
    ensures edges { OnOk result (AreEdgesOf igp.now.database.state igp.now.links igp.now.edges) }
    ensures held { OnOk result (Holds igp.now.database.state igp.now.database.state) }
    ensures err { OnErr result (shards.new ≡ shards.old) }
{
    let view = igp.view()?;
    if igp.changes() == before && before < u64::MAX {
        return Ok(());
    }
    shards.set_view(view)
}
