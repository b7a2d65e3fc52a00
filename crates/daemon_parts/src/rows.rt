//! Lists of lists.

ghost use Rattle.std.specs.Prelude.{◌≡◌, ◌<◌, ◌++◌, ◌∷◌, [], length, map, OnOk, slice_set, slice_index_or};

use rcp_base::NoMemory;

/// Puts a value after those of the row at a place.
///
/// `NoMemory` where there is no room for it; the rows are then as they were.
pub fn push_at<T: Drop>(rows: &mut Vec<Vec<T>>, place: usize, value: T) -> Result<(), NoMemory>
    requires { place < length rows.old.items }
    ensures { OnOk result (map (λ row. row.items) rows.new.items
        ≡ slice_set (map (λ row. row.items) rows.old.items) place (slice_index_or (map (λ row. row.items) rows.old.items) place [] ++ value ∷ [])) }
{
    rows[place].push(value)?;
    Ok(())
}
