//! The replica law, as the contract of a function that does nothing.

ghost use Rattle.replica_law.specs.Replicas.{ReplicaLaw};

/// Where a partition is alike in two replicas, each of its routers that is connected in both was given the same octets, or none in
/// both, for each prefix that is pending in neither.
pub fn equal_inputs_give_equal_tables()
    ensures { ReplicaLaw }
{}
