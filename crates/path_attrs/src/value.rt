//! The value of a path attribute, and its octets.

ghost use Rattle.std.specs.Prelude.{◌≡◌, ◌+◌, ◌<◌, ◌≤◌, ◌^◌, false, ◌&&◌, length, Some, None, IfOk, if◌then◌else◌};
ghost use Rattle.std.specs.Int.{w32, to_be_bytes};
ghost use Rattle.rcp_model.specs.Attributes.{attribute_octets, has_faulty_value, has_other_length, is_recognised, written, number_width};
ghost use Rattle.path_attrs.specs.Appending.{Appends};
ghost use Rattle.path_attrs.specs.Readings.{faulty_value};
ghost use Rattle.path_attrs.specs.Shown.{shown, header_octets, with_partial as flags_with};

use crate::aggregator::{AGGREGATOR_LEN, Aggregator};
use crate::communities::{communities_len, put_communities, read_communities};
use crate::flags::{EXTENDED, OPTIONAL, PARTIAL, TRANSITIVE, is_partial};
use crate::numbers::{put_u32, split_u32};
use crate::origin::Origin;
use crate::path::{Path, is_malformed};
use crate::refusal::fault_if;
use crate::table::{
    AGGREGATOR, AS_PATH, ATOMIC_AGGREGATE, COMMUNITIES, LOCAL_PREF, MULTI_EXIT_DISC, NEXT_HOP,
    ORIGIN,
};
use crate::unrecognised::Unrecognised;
use bgp_fault::{
    Data, Fault, INVALID_NEXT_HOP_ATTRIBUTE, INVALID_ORIGIN_ATTRIBUTE, MALFORMED_AS_PATH,
    OPTIONAL_ATTRIBUTE_ERROR,
};
use case_table::cases;
use octet_room::Room;
use rcp_base::Addr;
use std::alloc::{AllocError, Global};

/// The value of an attribute that is sent on.
#[derive(Debug, Drop)]
pub enum Value {
    Origin(Origin),
    AsPath(Path),
    NextHop(Addr),
    MultiExitDisc(u32),
    LocalPref(u32),
    AtomicAggregate,
    /// `partial` is the flag, as it was read.
    Aggregator {
        partial: bool,
        aggregator: Aggregator,
    },
    /// `partial` is the flag, as it was read.
    Communities {
        partial: bool,
        numbers: Vec<u32>,
    },
    Unrecognised(Unrecognised),
}

impl Value {
    /// The type of the attribute.
    pub fn kind(&self) -> u8
        ensures { result ≡ (shown self.now).kind }
    {
        match self {
            Value::Origin(_) => ORIGIN,
            Value::AsPath(_) => AS_PATH,
            Value::NextHop(_) => NEXT_HOP,
            Value::MultiExitDisc(_) => MULTI_EXIT_DISC,
            Value::LocalPref(_) => LOCAL_PREF,
            Value::AtomicAggregate => ATOMIC_AGGREGATE,
            Value::Aggregator { .. } => AGGREGATOR,
            Value::Communities { .. } => COMMUNITIES,
            Value::Unrecognised(other) => other.kind,
        }
    }

    /// The flags that the attribute is sent on with, but for that of its length.
    fn flags(&self) -> u8
        ensures { result ≡ (shown self.now).flags }
    {
        match self {
            Value::MultiExitDisc(_) => OPTIONAL,
            Value::Aggregator { partial, .. } | Value::Communities { partial, .. } => {
                with_partial(*partial)
            }
            Value::Unrecognised(_) => OPTIONAL | TRANSITIVE | PARTIAL,
            _ => TRANSITIVE,
        }
    }

    /// How many octets the value has.
    fn value_len(&self) -> usize
        requires { length (shown self.now).value < 2 ^ 16 }
        ensures { result ≡ length (shown self.now).value }
    {
        match self {
            Value::Origin(_) => 1,
            Value::AsPath(path) => path.octets_len(),
            Value::AtomicAggregate => 0,
            Value::Aggregator { .. } => AGGREGATOR_LEN,
            Value::Communities { numbers, .. } => communities_len(numbers),
            Value::Unrecognised(other) => other.octets.len(),
            _ => 4,
        }
    }

    /// How many octets the attribute has.
    pub fn octets_len(&self) -> usize
        requires { length (shown self.now).value < 2 ^ 16 }
        ensures { result ≡ length (attribute_octets (shown self.now)) }
    {
        let len = self.value_len();
        if len <= 255 { 3 + len } else { 4 + len }
    }

    /// The value of an attribute that has no fault, and is sent on.
    pub fn read(alloc: Global, flags: u8, kind: u8, octets: &[u8]) -> Result<Value, AllocError>
        requires length { (is_recognised kind
            && has_other_length number_width (record { flags = flags; kind = kind; value = octets.now })) ≡ false }
        requires faultless { (is_recognised kind
            && has_faulty_value number_width (record { flags = flags; kind = kind; value = octets.now })) ≡ false }
        ensures { IfOk result (λ value. shown value
            ≡ written (record { flags = flags; kind = kind; value = octets.now })) }
    {
        cases!(kind;
            ORIGIN => Ok(Value::Origin(Origin::from_octet(octets[0]))),
            AS_PATH => Ok(Value::AsPath(Path::read(alloc, octets)?)),
            NEXT_HOP => Ok(Value::NextHop(Addr(read_u32(octets)))),
            MULTI_EXIT_DISC => Ok(Value::MultiExitDisc(read_u32(octets))),
            LOCAL_PREF => Ok(Value::LocalPref(read_u32(octets))),
            ATOMIC_AGGREGATE => Ok(Value::AtomicAggregate),
            AGGREGATOR => Ok(Value::Aggregator {
                partial: is_partial(flags),
                aggregator: Aggregator::read(octets),
            }),
            COMMUNITIES => Ok(Value::Communities {
                partial: is_partial(flags),
                numbers: read_communities(alloc, octets)?,
            });
            _ => {
                let octets = Vec::from_slice(alloc, octets)?;
                Ok(Value::Unrecognised(Unrecognised { kind, octets }))
            }
        )
    }

    /// Puts the attribute at a place, and gives the place after it.
    pub fn put<R: Room>(&self, out: &mut R, at: usize) -> usize
        requires short { length (shown self.now).value < 2 ^ 16 }
        requires place { R.is_place out.old at }
        requires room { at + length (attribute_octets (shown self.now)) ≤ R.size out.old }
        ensures appends { Appends (R.octets out.old) at (R.octets out.new) result (attribute_octets (shown self.now)) }
        ensures place { R.is_place out.new result }
        ensures size { R.size out.old ≤ R.size out.new }
    {
        let at = put_header(out, at, self.flags(), self.kind(), self.value_len());
        self.put_value(out, at)
    }

    /// Puts the octets of the value.
    fn put_value<R: Room>(&self, out: &mut R, at: usize) -> usize
        requires place { R.is_place out.old at }
        requires room { at + length (shown self.now).value ≤ R.size out.old }
        ensures appends { Appends (R.octets out.old) at (R.octets out.new) result (shown self.now).value }
        ensures place { R.is_place out.new result }
        ensures size { R.size out.old ≤ R.size out.new }
    {
        match self {
            Value::Origin(origin) => out.put(at, &[origin.octet()]),
            Value::AsPath(path) => path.put(out, at),
            Value::NextHop(addr) => put_u32(out, at, addr.0),
            Value::MultiExitDisc(number) | Value::LocalPref(number) => put_u32(out, at, *number),
            Value::AtomicAggregate => at,
            Value::Aggregator { aggregator, .. } => aggregator.put(out, at),
            Value::Communities { numbers, .. } => put_communities(out, at, numbers),
            Value::Unrecognised(other) => out.put(at, &other.octets),
        }
    }
}

/// The fault of the value of a recognised attribute whose length is that of its type (RFC 4271, section 6.3): an ORIGIN
/// above 2, an AS_PATH that is malformed, a NEXT_HOP that is no address of a host, COMMUNITIES that aren't whole.
pub fn value_fault(kind: u8, octets: &[u8], span: Data) -> Option<Fault>
    requires { has_other_length number_width (record { flags = 0; kind = kind; value = octets.now }) ≡ false }
    ensures { result ≡ (if has_faulty_value number_width (record { flags = 0; kind = kind; value = octets.now })
        then Some (faulty_value kind span) else None) }
{
    cases!(kind;
        ORIGIN => fault_if(octets[0] > 2, INVALID_ORIGIN_ATTRIBUTE, span),
        AS_PATH => fault_if(is_malformed(octets), MALFORMED_AS_PATH, Data::None),
        NEXT_HOP => fault_if(!matches!(octets[0], 1..=223), INVALID_NEXT_HOP_ATTRIBUTE, span),
        COMMUNITIES => fault_if(octets.len() % 4 != 0, OPTIONAL_ATTRIBUTE_ERROR, span);
        _ => None
    )
}

/// The number of four octets.
fn read_u32(octets: &[u8]) -> u32
    requires { length octets.now ≡ 4 }
    ensures { to_be_bytes w32 result ≡ octets.now }
{
    match split_u32(octets) {
        Some((number, _)) => number,
        None => unreachable!(),
    }
}

/// The flags of a recognised attribute that is optional and transitive.
fn with_partial(partial: bool) -> u8
    ensures { result ≡ flags_with partial }
{
    if partial {
        OPTIONAL | TRANSITIVE | PARTIAL
    } else {
        OPTIONAL | TRANSITIVE
    }
}

/// Puts flags, type and length: one octet of length where it suffices.
fn put_header<R: Room>(out: &mut R, at: usize, flags: u8, kind: u8, len: usize) -> usize
    requires flags { flags < 240 }
    requires short { len < 2 ^ 16 }
    requires place { R.is_place out.old at }
    requires room { at + length (header_octets flags kind len) ≤ R.size out.old }
    ensures appends { Appends (R.octets out.old) at (R.octets out.new) result (header_octets flags kind len) }
    ensures place { R.is_place out.new result }
    ensures size { R.size out.old ≤ R.size out.new }
{
    if len <= 255 {
        out.put(at, &[flags, kind, len as u8])
    } else {
        let [high, low] = (len as u16).to_be_bytes();
        out.put(at, &[flags + EXTENDED, kind, high, low])
    }
}
