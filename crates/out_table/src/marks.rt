//! The order of the dirty places.

ghost use Rattle.std.specs.Prelude.{◌≡◌, ◌<◌, length};
ghost use Rattle.rcp_base.specs.IpPrefix.{prefix_cmp};
ghost use Rattle.out_table.specs.Places.{order_in};

use rcp_base::Prefix;
use std::cmp::Ordering;

/// How the prefix at a place compares to another: as the greater one where there is none.
pub fn order_at(prefixes: &[Prefix], place: u32, p: &Prefix) -> Ordering
    ensures { result ≡ order_in prefixes.now p.now place }
{
    match prefixes.get(place as usize) {
        Some(q) => q.cmp(p),
        None => Ordering::Greater,
    }
}
