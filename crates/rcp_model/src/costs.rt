use rcp_base::Slot;

/// What knows the interior costs between the routers of a roster (RFC 2328 section 16.1).
///
/// Contracts speak of its edges and of its members, and the cost is then determined.
pub trait Costs {
    ghost use Rattle.std.specs.Prelude.{◌≡◌, List};
    ghost use Rattle.rcp_base.specs.declared.names.Member.{Member};
    ghost use Rattle.rcp_base.specs.declared.names.Edge.{Edge};
    ghost use Rattle.rcp_model.specs.RouteServer.{slot_cost};

    /// The edges of the interior network.
    ghost edges: { Self → List Edge };

    /// The routers, by slot.
    ghost members: { Self → List Member };

    /// The least sum of costs over all walks of edges from the one router to the other, `None` where there is no walk,
    /// and where either slot is past the last member's.
    fn cost(&self, from: Slot, to: Slot) -> Option<u32>
        ensures { result ≡ slot_cost (edges self.now) (members self.now) from to };
}
