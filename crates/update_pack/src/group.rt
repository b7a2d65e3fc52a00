//! Groups of prefixes whose cells have one value.

ghost use Rattle.std.specs.Prelude.{◌≤◌};
ghost use Rattle.update_pack.specs.Values.{value_in, octet_count};

use rcp_base::Prefix;

/// The prefixes that are withdrawn, or those that are announced with the same attribute octets. An UPDATE has room for the
/// octets and any prefix.
#[derive(Drop)]
pub(crate) struct Group<'a> {
    pub(crate) attrs: Option<&'a [u8]>,
    pub(crate) prefixes: Vec<Prefix>,
    ghost short: { octet_count (value_in attrs) ≤ 4068 },
}
