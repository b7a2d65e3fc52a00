//! The link state: the same octets make the same packets whole, and each shard learns of the same edges, once a record.

ghost use Rattle.std.specs.Prelude.{◌≡◌, ℕ, List};
ghost use Rattle.rcp_base.specs.declared.kinds.Kind.{Kind};
ghost use Rattle.rcp_base.specs.declared.names.Edge.{Edge};
ghost use Rattle.rcp_base.specs.Roster.{RosterOf};
ghost use Rattle.rcp_model.specs.LinkState.{LinkState};
ghost use Rattle.rcp_model.specs.Routes.{RouteFields};
ghost use Rattle.rcp_model.specs.ServerRibs.{Links, Ribs, ribs_after};
ghost use Rattle.feed_meaning.specs.Platform.{Platform};
ghost use Rattle.feed_meaning.specs.LinkRecords.{links_act};
ghost use Rattle.platform_laws.specs.Parts.{roster_reader};
ghost use Rattle.platform_laws.specs.Platforms.{PlatformOf, IsSeen};
ghost use Rattle.platform_laws.specs.Links.{IsLinkedBy, seen_after_links, output_of_links};

/// The second stage of a record: what it does with the link state, and what it puts out.
pub fn the_link_state_of_a_record()
    ensures after { (platform : Platform) (seen : PlatformOf) → IsSeen platform seen → (state : LinkState) (edges : List Edge) (body : List ℕ) (k : Kind)
        → IsLinkedBy seen body k state edges → IsSeen (links_act platform body k).after (seen_after_links seen body k state edges) }
    ensures output { (platform : Platform) (seen : PlatformOf) (body : List ℕ) (k : Kind) → IsSeen platform seen
        → (links_act platform body k).out ≡ output_of_links seen body k }
{}

/// A shard that learns of the edges that it has stays as it is.
pub fn edges_that_stay_change_nothing()
    ensures { (roster : RosterOf) (ribs : Ribs RouteFields) → ribs_after (roster_reader roster) (Links ribs.edges) ribs ≡ ribs }
{}
