// Laws of tables of cells. Each is the contract of a function that does nothing.
ghost use Rattle.std.specs.Prelude.{◌≡◌, ℕ, List};
ghost use Rattle.rcp_base.specs.IpPrefix.{IpPrefix};
ghost use Rattle.out_table.specs.Tables.{cell, is_dirty};
ghost use Rattle.out_table.specs.Histories.{Change, table_after, last_value, was_changed};

/// After any run of changes each cell has the value that it was last set to, and exactly the cells are dirty that were
/// set to another value since they were taken or cleared.
pub fn dirty_cells_are_those_changed()
    ensures cells { (members : ℕ) (changes : List Change) (slot : ℕ) (p : IpPrefix) →
        cell (table_after members changes) slot p ≡ last_value slot p changes }
    ensures dirty { (members : ℕ) (changes : List Change) (slot : ℕ) (p : IpPrefix) →
        is_dirty (table_after members changes) slot p ≡ was_changed slot p changes }
{}
