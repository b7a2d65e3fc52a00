//! A change of one cell of a slot.

ghost use Rattle.std.specs.Prelude.{◌≡◌, ◌<◌, ◌-◌, ◌^◌, length, not, IfSome};
ghost use Rattle.out_table.specs.Cells.{number_at, held_for, is_same};
ghost use Rattle.out_table.specs.Columns.{SetsAt};
ghost use Rattle.out_table.specs.Places.{AreKept, prefix_in, cells_at};

use crate::columns::Columns;
use rcp_base::Prefix;
use rcp_model::RouteNo;

/// Writes the cell of a slot at a prefix, and marks it where its value changes. Answers whether it does.
pub fn set_cell(
    columns: &mut Columns,
    slot: usize,
    prefixes: &[Prefix],
    p: &Prefix,
    place: u32,
    value: Option<RouteNo>,
) -> bool
    requires slot { slot < length columns.old.items }
    requires kept { AreKept (length prefixes.now) prefixes.now (cells_at slot columns.old.items) }
    requires within { place < length prefixes.now }
    requires place { prefix_in prefixes.now place ≡ p.now }
    ensures changed { result ≡ not (is_same (number_at place (cells_at slot columns.old.items).numbers) value) }
    ensures small { IfSome value (λ number. number < 2 ^ 32 - 1) }
    ensures members { columns.new.members ≡ columns.old.members }
    ensures after { SetsAt slot place (held_for value) prefixes.now result columns.old.items columns.new.items }
{
    if !columns.write(slot, place, value) {
        return false;
    }
    if let Some(gap) = columns.gap(slot, prefixes, p) {
        columns.mark(slot, gap, place);
    }
    true
}
