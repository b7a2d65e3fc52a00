//! Cells whose attribute octets are borrowed.

use rcp_base::Prefix;

/// A cell of a router's table: a prefix, and the attribute octets that it is announced with, or none where it is withdrawn.
#[derive(Clone, Copy)]
pub struct OfferedCell<'a> {
    pub prefix: Prefix,
    pub attrs: Option<&'a [u8]>,
}
