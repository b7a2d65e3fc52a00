//! The dirty cells of a shard over its work.

ghost use Rattle.std.specs.Prelude.{◌≡◌, ◌||◌, ℕ, List};
ghost use Rattle.std.specs.FinSet as set_of;
ghost use Rattle.rcp_base.specs.IpPrefix.{IpPrefix};
ghost use Rattle.rcp_base.specs.Roster.{RosterOf};
ghost use Rattle.rcp_model.specs.Routes.{RouteFields};
ghost use Rattle.rcp_model.specs.ServerRibs.{Ribs, ribs_after_all};
ghost use Rattle.platform_laws.specs.Parts.{roster_reader};
ghost use Rattle.platform_laws.specs.Work.{works};
ghost use Rattle.platform_laws.specs.Dirty.{Cells, has_changed, dirty_over};

/// After work on some prefixes, where each makes the cells dirty that it changes, those cells are dirty that were so before, and
/// those whose route is another one than before all of it.
pub fn cells_that_change_are_dirty()
    ensures { (roster : RosterOf) (prefixes : List IpPrefix) (ribs : Ribs RouteFields) (dirty : Cells) (p : IpPrefix) (slot : ℕ)
        → set_of.contains (dirty_over (roster_reader roster) prefixes ribs dirty) (p, slot)
        ≡ (set_of.contains dirty (p, slot) || has_changed ribs (ribs_after_all (roster_reader roster) (works prefixes) ribs) slot p) }
{}
