//! Packed UPDATEs: that they carry the cells that they are written for, in what order they stand and how they are filled.

ghost use Rattle.std.specs.Prelude.{List};
ghost use Rattle.std.specs.List.{AllByRecursion};
ghost use Rattle.rcp_model.specs.Cells.{Cell, AreCells, CarriesAll};
ghost use Rattle.rcp_model.specs.Packing.{groups, packed, StandInOrder, AreFilled};

/// Each packed message is whole, and replayed after any table they give each cell its value and leave the other prefixes.
pub fn packed_updates_carry_the_cells()
    ensures { CarriesAll packed }
{}

/// The withdrawn prefixes come first, and then the announced ones in groups of equal attribute octets, by the least prefix
/// of each; in a group the prefixes rise.
pub fn groups_stand_by_their_least_prefix()
    ensures { (cells : List Cell) → AreCells cells → StandInOrder (groups cells) }
{}

/// The messages of a group have its prefixes in their order. None has more than 4,096 octets, and each but the last has no
/// room for the first prefix of the next one.
pub fn packed_updates_are_filled()
    ensures { (cells : List Cell) → AreCells cells → AllByRecursion AreFilled (groups cells) }
{}
