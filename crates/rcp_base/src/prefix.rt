//! IP address prefixes and their octets (RFC 4271 section 4.3).

ghost use Rattle.std.specs.Prelude.{◌≡◌, ℕ, ◌+◌, ◌<◌, ◌≤◌, List, ◌++◌, length, drop, Some, IfSome};
ghost use Rattle.rcp_base.specs.IpPrefix.{IpPrefix, IsPrefix, prefix_of, prefix_at, octets_for, address_of_octets, prefix_octets, prefix_cmp, shard_of_prefix};
ghost use Rattle.std.proofs.Common.{rules};
ghost use Rattle.std.specs.Cmp.{partial_order_from_own_ties};
ghost use Rattle.std.specs.Cmp.Rules.{comparing};
ghost use Rattle.std.specs.Ordering.{as_partial_cmp, is_lt};
ghost use Rattle.rcp_base.specs.Maps.{is_before};
ghost use Rattle.rcp_base.specs.Text.{prefix_text};

use crate::names::Addr;
use std::cmp::Ordering;
use std::fmt;
use std::marker::Model;

/// An address, and how many of its first bits count. The other bits are 0. Prefixes are ordered by
/// address, then by length.
#[derive(Clone, Copy, Debug, PartialEq, Eq, Hash)]
pub struct Prefix {
    addr: u32,
    len: u8,
}

impl Model for Prefix {
    ghost use Rattle.rcp_base.specs.IpPrefix.{IpPrefix, IsPrefix};

    ghost Value = { IpPrefix };

    ghost view = { λ p. record { addr = p.addr; len = p.len } };

    ghost invariant = { λ p. IsPrefix (record { addr = p.addr; len = p.len }) };

    ghost inverse = { λ p. record { addr = p.addr; len = p.len } };
}

impl Prefix {
    /// The prefix of an address and a length of 0 to 32, with the bits after the length set to 0.
    pub fn new(addr: u32, len: u8) -> Option<Prefix>
        ensures { result ≡ prefix_of addr len }
    {
        if len > 32 {
            return None;
        }
        let unused = 32 - len;
        let addr = (u64::from(addr) >> unused << unused) as u32;
        Some(Prefix { addr, len })
    }

    /// The address, whose bits after the length are 0.
    pub fn addr(&self) -> u32
        ensures value { result ≡ self.now.addr }
        ensures in_form { IsPrefix self.now }
    {
        self.addr
    }

    /// How many first bits of the address count: 0 to 32.
    pub fn len(&self) -> u8
        ensures value { result ≡ self.now.len }
        ensures in_form { IsPrefix self.now }
    {
        self.len
    }

    /// The prefix at the front, and how many octets it takes. None exactly where there is no length,
    /// where it is above 32, or where too few octets follow it. Bits after the length are read as 0.
    pub fn read_octets(bytes: &[u8]) -> Option<(Prefix, usize)>
        ensures value { result ≡ prefix_at bytes.now }
        ensures in_form { IfSome result (λ found. IsPrefix found.0) }
        ensures within { IfSome result (λ found. (0 < found.1) × (found.1 ≤ length bytes.now)) }
    {
        let (len, rest) = bytes.split_first()?;
        if *len > 32 {
            return None;
        }
        let count = octets_for(*len);
        if rest.len() < count {
            return None;
        }
        let prefix = Prefix::new(address_of(&rest[..count]), *len)?;
        Some((prefix, 1 + count))
    }

    /// Writes the prefix at the front, and answers how many octets it took: 1 to 5.
    pub fn write_octets(&self, out: &mut [u8; 5]) -> usize
        ensures octets { out.new ≡ prefix_octets self.now ++ drop result out.old }
        ensures count { result ≡ length (prefix_octets self.now) }
    {
        let count = octets_for(self.len);
        out[0] = self.len;
        out[1..1 + count].copy_from_slice(&self.addr.to_be_bytes()[..count]);
        1 + count
    }
}

impl Ord for Prefix {
    ghost cmp = { prefix_cmp };

    ghost total = { Prim.search (comparing, rules) };

    ghost matches_partial_cmp = { Prim.search (comparing, rules) };

    ghost matches_eq = { Prim.search (comparing, rules) };

    fn cmp(&self, other: &Prefix) -> Ordering {
        self.addr.cmp(&other.addr).then(self.len.cmp(&other.len))
    }
}

impl PartialOrd for Prefix {
    ghost partial_cmp = { as_partial_cmp prefix_cmp };

    ghost laws = { partial_order_from_own_ties (Prim.search (comparing, rules)) (Prim.search (comparing, rules)) };

    fn partial_cmp(&self, other: &Prefix) -> Option<Ordering> {
        Some(self.cmp(other))
    }
}

impl fmt::Display for Prefix {
    ghost output = { λ p. Some (prefix_text p) };

    fn fmt<W: fmt::Write>(&self, f: &mut fmt::Formatter<W>) -> fmt::Result {
        let address = Addr(self.addr);
        let len = self.len;
        write!(f, "{address}/{len}")
    }
}

/// The least number of octets that holds so many bits.
fn octets_for(bits: u8) -> usize
    requires { bits ≤ 32 }
    ensures { result ≡ octets_for bits }
{
    (usize::from(bits) + 7) / 8
}

/// The address of its first octets; the others are 0.
fn address_of(first: &[u8]) -> u32
    requires { length first.now ≤ 4 }
    ensures { result ≡ address_of_octets first.now }
{
    let mut octets = [0; 4];
    octets[..first.len()].copy_from_slice(first);
    u32::from_be_bytes(octets)
}

/// The shard of a prefix, of so many shards.
pub fn shard_of(p: Prefix, shards: u16) -> u16
    requires { 1 ≤ shards }
    ensures { result ≡ shard_of_prefix p shards }
{
    ((p.addr / 256 + u32::from(p.len)) % u32::from(shards)) as u16
}

/// What a prefix writes is read again as that prefix, whatever follows it.
pub fn octets_are_read_again()
    ensures { (p : IpPrefix) (more : List ℕ) → IsPrefix p → prefix_at (prefix_octets p ++ more) ≡ Some (p, length (prefix_octets p)) }
{}

/// No prefix's octets begin another's: the octets give the prefix, and where it ends.
pub fn octets_tell_the_prefix()
    ensures { (p q : IpPrefix) (x y : List ℕ) → IsPrefix p → IsPrefix q → prefix_octets p ++ x ≡ prefix_octets q ++ y → (p ≡ q) × (x ≡ y) }
{}

/// A prefix is before another exactly where it compares as less.
pub fn before_is_less()
    ensures { (p q : IpPrefix) → is_before p q ≡ is_lt (prefix_cmp p q) }
{}
