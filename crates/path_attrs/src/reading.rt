//! Reading: one attribute after another, each with all its checks before the next (RFC 4271, section 6.3).

ghost use Rattle.std.specs.Prelude.{◌≡◌, ◌-◌, ◌==◌, ◌||◌, ◌<◌, ◌≤◌, ◌^◌, [], ◌∷◌, true, false, length, IfOk, IfErr, OnOk, OnErr, IsTrue, not, is_none, List, ℕ, Some, None};
ghost use Rattle.std.specs.List.{list_all};
ghost use Rattle.rcp_base.specs.Cut.{cut};
ghost use Rattle.rcp_model.specs.Attributes as model;
ghost use Rattle.rcp_model.specs.Attributes.{attribute_of, attribute_size, attributes_in, attributes_fault, list_fault, missing_fault, value_of, canonical_octets, is_kept, number_width};
ghost use Rattle.rcp_model.specs.Routes.{route_of};
ghost use Rattle.bgp_fault.specs.declared.Data.TheVariants.{None as NoData, Octet, Span};
ghost use Rattle.bgp_fault.specs.Faults.{IsWithin};
ghost use Rattle.case_table.specs.Rows.{row_of};
ghost use Rattle.path_attrs.specs.Refusals.{IfFault, IfNoMemory, KeepsOne, fault_in, update_fault};
ghost use Rattle.path_attrs.specs.Readings.{passed_on, own_fault, next_fault, IsNext, all_inserted, sent_on, read_of};
ghost use Rattle.path_attrs.specs.Shown.{all_shown};
ghost use Rattle.path_attrs.specs.declared.table.TheConstants.{ROWS};

use crate::attrs::{Attrs, has, insert};
use crate::flags::{category, is_optional, is_transitive};
use crate::header::{first_attribute, value_place};
use crate::refusal::{AttrRefusal, fault, fault_if};
use crate::table::{ANY, AS_PATH, NEXT_HOP, ORIGIN, is_recognised, rows};
use crate::value::{Value, value_fault};
use bgp_fault::{
    ATTRIBUTE_FLAGS_ERROR, ATTRIBUTE_LENGTH_ERROR, Data, Fault, MALFORMED_ATTRIBUTE_LIST,
    MISSING_WELL_KNOWN_ATTRIBUTE, UNRECOGNIZED_WELL_KNOWN_ATTRIBUTE,
};
use case_table::{Row, Table};
use std::alloc::{AllocError, Global};

/// Reads the path attributes of an UPDATE (RFC 4271, section 4.3): at most 4,073 octets, which is what an UPDATE of
/// 4,096 has room for. `nlri` says whether the UPDATE announces prefixes, and so needs a route.
///
/// `AttrRefusal::Fault` has the first fault in the order of RFC 4271, section 6.3, its span counted in `bytes`;
/// `AttrRefusal::NoMemory` comes where there was no room for an attribute that is sent on, and only where it and those
/// in front of it have no fault.
///
/// Each attribute is judged before memory is taken for it, and only a value that is sent on is kept.
pub fn read(alloc: Global, bytes: &[u8], nlri: bool) -> Result<Attrs, AttrRefusal>
    requires { length bytes.now ≤ 4073 }
    ensures faultless { OnOk result (attributes_fault number_width nlri bytes.now ≡ None) }
    ensures attributes { IfOk result (λ attrs. attrs ≡ read_of bytes.now) }
    ensures octets { IfOk result (λ attrs. canonical_octets attrs ≡ canonical_octets (attributes_in bytes.now)) }
    ensures route { IfOk result (λ attrs. (local_as : ℕ) → route_of number_width local_as attrs
        ≡ route_of number_width local_as (attributes_in bytes.now)) }
    ensures complete { IfOk result (λ attrs. nlri ≡ true → model.has_route attrs ≡ true) }
    ensures first_fault { IfErr result (λ refusal. IfFault refusal (λ fault.
        attributes_fault number_width nlri bytes.now ≡ Some (fault_in bytes.now fault))) }
    ensures within { IfErr result (λ refusal. IfFault refusal (λ fault. IsWithin bytes.now fault.extra)) }
    ensures memory { IfErr result (λ refusal. IfNoMemory refusal (KeepsOne bytes.now)) }
{
    let attrs = Attrs::new(read_list(alloc, bytes, &mut [false; 256])?);
    if nlri {
        need_all(&attrs)?;
    }
    Ok(attrs)
}

/// Refuses attributes of which a route can't be made: the first of ORIGIN, AS_PATH and NEXT_HOP that is missing.
fn need_all(attrs: &Attrs) -> Result<(), Fault>
    ensures complete { OnOk result (missing_fault attrs.now ≡ None) }
    ensures missing { IfErr result (λ fault.
        (body : List ℕ) → (missing_fault attrs.now ≡ Some (fault_in body fault)) × IsWithin body fault.extra) }
{
    need(attrs, ORIGIN)?;
    need(attrs, AS_PATH)?;
    need(attrs, NEXT_HOP)
}

/// Refuses attributes of which this one is missing.
fn need(attrs: &Attrs, kind: u8) -> Result<(), Fault>
    ensures there { OnOk result (is_none (value_of kind attrs.now) ≡ false) }
    ensures missing { IfErr result (λ fault.
        (is_none (value_of kind attrs.now) ≡ true) × (fault ≡ update_fault 3 (Octet kind))) }
{
    if has(attrs, kind) {
        Ok(())
    } else {
        Err(fault(MISSING_WELL_KNOWN_ATTRIBUTE, Data::Octet(kind)))
    }
}

/// The values of a list of attributes, in order of type. `seen` has no type marked at first.
fn read_list(alloc: Global, body: &[u8], seen: &mut [bool; 256]) -> Result<Vec<Value>, AttrRefusal>
    requires short { length body.now ≤ 4073 }
    requires types { length seen.old ≡ 256 }
    requires unmarked { IsTrue (list_all not seen.old) }
    ensures faultless { OnOk result (list_fault number_width [] (cut attribute_size body.now).0
        (cut attribute_size body.now).1 ≡ None) }
    ensures values { IfOk result (λ values. all_shown values.items ≡ sent_on (attributes_in body.now)) }
    ensures fault { IfErr result (λ refusal. IfFault refusal (λ fault. list_fault number_width []
        (cut attribute_size body.now).0 (cut attribute_size body.now).1 ≡ Some (fault_in body.now fault))) }
    ensures within { IfErr result (λ refusal. IfFault refusal (λ fault. IsWithin body.now fault.extra)) }
    ensures memory { IfErr result (λ refusal. IfNoMemory refusal (KeepsOne body.now)) }
{
    let table = rows();
    let mut values = Vec::new(alloc);
    let mut place = 0;
    while place < body.len() {
        let piece = next_piece(&table, body, place, seen)?;
        add_value(alloc, piece, &mut values)?;
        place += piece.len();
    }
    Ok(values)
}

/// The attribute at a place of the body, with all its checks: it has to be whole, its type new, and it has no fault of its
/// own.
fn next_piece<'a>(
    table: &Table<8>,
    body: &'a [u8],
    place: usize,
    seen: &mut [bool; 256],
) -> Result<&'a [u8], Fault>
    requires table { table.now ≡ ROWS }
    requires inside { place < length body.now }
    requires short { length body.now ≤ 4073 }
    requires types { length seen.old ≡ 256 }
    ensures types { length seen.new ≡ 256 }
    ensures faultless { OnOk result (next_fault body.now place seen.old ≡ None) }
    ensures piece { IfOk result (λ piece. IsNext body.now place seen.old seen.new piece.now) }
    ensures fault { IfErr result (λ fault. next_fault body.now place seen.old ≡ Some fault) }
{
    let Some(piece) = first_attribute(&body[place..]) else {
        return Err(fault(MALFORMED_ATTRIBUTE_LIST, Data::None));
    };
    let kind = usize::from(piece[1]);
    if seen[kind] {
        return Err(fault(MALFORMED_ATTRIBUTE_LIST, Data::None));
    }
    seen[kind] = true;
    match own_fault(table, piece, place as u16) {
        Some(fault) => Err(fault),
        None => Ok(piece),
    }
}

/// The first fault of a whole attribute by itself. `start` is where it stands in the body whose octets a fault names.
fn own_fault(table: &Table<8>, piece: &[u8], start: u16) -> Option<Fault>
    requires table { table.now ≡ ROWS }
    requires long { 3 ≤ length piece.now }
    requires header { model.value_place piece.now ≤ length piece.now }
    requires short { length piece.now < 2 ^ 16 - 1 }
    ensures { result ≡ own_fault (attribute_of piece.now) (Span start (length piece.now)) }
{
    let span = Data::Span {
        start,
        len: piece.len() as u16,
    };
    let flags = piece[0];
    let octets = &piece[value_place(piece)..];
    match table.find(u16::from(piece[1])) {
        Some(row) => recognised_fault(row, flags, octets, span),
        None => fault_if(!is_optional(flags), UNRECOGNIZED_WELL_KNOWN_ATTRIBUTE, span),
    }
}

/// The first fault of a recognised attribute, of which `row` is the table's row: of its flags, its length, its value.
fn recognised_fault(row: &Row, flags: u8, octets: &[u8], span: Data) -> Option<Fault>
    requires row { row_of ROWS row.now.code ≡ Some row.now }
    requires kind { row.now.code < 256 }
    requires short { length octets.now < 2 ^ 16 - 1 }
    ensures { result ≡ own_fault (record { flags = flags; kind = row.now.code; value = octets.now }) span }
{
    if u16::from(category(flags)) != row.first {
        return Some(fault(ATTRIBUTE_FLAGS_ERROR, span));
    }
    if !has_length(row, octets.len()) {
        return Some(fault(ATTRIBUTE_LENGTH_ERROR, span));
    }
    value_fault(row.code as u8, octets, span)
}

/// Whether a value may have this length.
fn has_length(row: &Row, len: usize) -> bool
    ensures { result ≡ (row.now.second == 65535 || row.now.second == len) }
{
    row.second == ANY || usize::from(row.second) == len
}

/// Puts what is sent on of a faultless attribute, if anything, in its place among values of rising types.
fn add_value(alloc: Global, piece: &[u8], values: &mut Vec<Value>) -> Result<(), AllocError>
    requires long { 3 ≤ length piece.now }
    requires header { model.value_place piece.now ≤ length piece.now }
    requires faultless { own_fault (attribute_of piece.now) NoData ≡ None }
    ensures values { OnOk result (all_shown values.new.items
        ≡ all_inserted (passed_on (attribute_of piece.now ∷ [])) (all_shown values.old.items)) }
    ensures memory { OnErr result (is_kept (attribute_of piece.now) ≡ true) }
{
    let flags = piece[0];
    let kind = piece[1];
    if !is_recognised(kind) && !is_transitive(flags) {
        return Ok(());
    }
    let octets = &piece[value_place(piece)..];
    insert(values, Value::read(alloc, flags, kind, octets)?)
}
