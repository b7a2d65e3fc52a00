//! The route that attributes make: what the decision process reads of them (RFC 4271, section 9.1).

ghost use Rattle.std.specs.Prelude.{◌≡◌, [], Some, IsTrue, IfOk, is_some, nat_lt, unwrap_or};
ghost use Rattle.std.specs.Int.{w8, from_be_bytes};
ghost use Rattle.rcp_model.specs.Attributes as model;
ghost use Rattle.rcp_model.specs.Attributes.{value_of, number_width};
ghost use Rattle.rcp_model.specs.Routes.{number_or, path_of, route_of};
ghost use Rattle.path_attrs.specs.Segments.{path_octets};
ghost use Rattle.path_attrs.specs.Shown.{all_shown};

use crate::attrs::{Attrs, find};
use crate::path::{Segment, hops, neighbour, passes};
use crate::table::{AS_PATH, LOCAL_PREF, MULTI_EXIT_DISC, NEXT_HOP, ORIGIN};
use crate::value::Value;
use crate::writing::{DEFAULT_PREF, canonical_octets};
use rcp_base::{Addr, NoMemory};
use rcp_model::{Octets, Route};
use std::alloc::Global;
use std::sync::Arc;

/// The most octets of attributes that leave room for a prefix in an UPDATE of 4,096 octets.
const MOST_OCTETS: usize = 4068;

/// The route of the attributes in the AS `local_as`, with the octets of the attributes as they are sent on
/// (RFC 4271, sections 5 and 9.1). It is long where those have more than 4,068 octets, and looped where the AS stands in
/// its path.
///
/// The attributes need ORIGIN, AS_PATH and NEXT_HOP, which `has_route` tests. `NoMemory` comes where there was no room
/// for the octets.
pub fn route(alloc: Global, attrs: &Attrs, local_as: u32) -> Result<Route, NoMemory>
    requires { IsTrue (model.has_route attrs.now) }
    ensures { IfOk result (λ route. route ≡ route_of number_width local_as attrs.now) }
{
    let octets = canonical_octets(alloc, attrs)?;
    let values = attrs.values();
    let path = segments(values);
    Ok(Route {
        pref: local_pref(values),
        hops: hops(path),
        origin: origin(values),
        neighbour: neighbour(path, local_as),
        med: multi_exit_disc(values),
        looped: passes(path, local_as),
        long: is_long(octets.len()),
        next_hop: Addr(next_hop(values)),
        attrs: shared(alloc, &octets)?,
    })
}

/// Whether so many octets leave no room for a prefix.
fn is_long(len: usize) -> bool
    ensures { result ≡ nat_lt 4068 len }
{
    len > MOST_OCTETS
}

/// Octets that routes share.
fn shared(alloc: Global, octets: &[u8]) -> Result<Arc<Octets>, NoMemory>
    ensures { IfOk result (λ shared. shared.value ≡ octets.now) }
{
    let octets = Octets::from_slice(alloc, octets)?;
    match Arc::new(alloc, octets) {
        Ok(shared) => Ok(shared),
        Err(_) => Err(NoMemory),
    }
}

/// LOCAL_PREF, or 100 where it is absent.
#[tactic(auto, using(crate::proofs::Words::word_back))]
fn local_pref(values: &[Value]) -> u32
    ensures { result ≡ number_or 100 (value_of model.LOCAL_PREF (all_shown values.now)) }
{
    match find(values, LOCAL_PREF) {
        Some(Value::LocalPref(pref)) => *pref,
        _ => DEFAULT_PREF,
    }
}

/// ORIGIN as its octet.
fn origin(values: &[Value]) -> u8
    requires { IsTrue (is_some (value_of model.ORIGIN (all_shown values.now))) }
    ensures { result ≡ from_be_bytes w8 (unwrap_or (value_of model.ORIGIN (all_shown values.now)) []) }
{
    match find(values, ORIGIN) {
        Some(Value::Origin(origin)) => origin.octet(),
        _ => unreachable!(),
    }
}

/// The segments of AS_PATH.
fn segments(values: &[Value]) -> &[Segment]
    requires { IsTrue (is_some (value_of model.AS_PATH (all_shown values.now))) }
    ensures value { value_of model.AS_PATH (all_shown values.now) ≡ Some (path_octets result.now) }
    ensures segments { path_of number_width (all_shown values.now) ≡ result.now }
{
    match find(values, AS_PATH) {
        Some(Value::AsPath(path)) => path.segments(),
        _ => unreachable!(),
    }
}

/// NEXT_HOP as a number.
#[tactic(auto, using(crate::proofs::Words::word_back))]
fn next_hop(values: &[Value]) -> u32
    requires { IsTrue (is_some (value_of model.NEXT_HOP (all_shown values.now))) }
    ensures { result ≡ number_or 0 (value_of model.NEXT_HOP (all_shown values.now)) }
{
    match find(values, NEXT_HOP) {
        Some(Value::NextHop(addr)) => addr.0,
        _ => unreachable!(),
    }
}

/// MULTI_EXIT_DISC, or 0 where it is absent.
#[tactic(auto, using(crate::proofs::Words::word_back))]
fn multi_exit_disc(values: &[Value]) -> u32
    ensures { result ≡ number_or 0 (value_of model.MULTI_EXIT_DISC (all_shown values.now)) }
{
    match find(values, MULTI_EXIT_DISC) {
        Some(Value::MultiExitDisc(med)) => *med,
        _ => 0,
    }
}
