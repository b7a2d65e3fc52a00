//! Path attributes in order of type.

ghost use Rattle.std.specs.Prelude.{◌≡◌, ◌≤◌, ◌∷◌, ◌++◌, length, take, drop, OnOk, IfSome, is_some};
ghost use Rattle.std.specs.Option.{option_copied, option_map};
ghost use Rattle.rcp_model.specs.Attributes as model;
ghost use Rattle.rcp_model.specs.Attributes.{Attribute, insert_by_type, value_of};
ghost use Rattle.path_attrs.specs.Lists.{IsKept};
ghost use Rattle.path_attrs.specs.Shown.{shown, all_shown};

use crate::table::{AS_PATH, COMMUNITIES, NEXT_HOP, ORIGIN};
use crate::value::Value;
use std::alloc::AllocError;
use std::marker::Model;

/// How many types are recognised: 1 to COMMUNITIES.
const RECOGNISED: usize = COMMUNITIES as usize;

/// The path attributes of an UPDATE that are sent on, in order of type. Contracts see the list of attributes, each with
/// the flags that it is sent on with.
#[derive(Debug, Drop)]
pub struct Attrs {
    values: Vec<Value>,
}

impl Model for Attrs {
    ghost use Rattle.std.specs.Prelude.{List};
    ghost use Rattle.rcp_model.specs.Attributes.{Attribute};
    ghost use Rattle.path_attrs.specs.Lists.{IsKept};
    ghost use Rattle.path_attrs.specs.Shown.{all_shown};

    ghost Value = { List Attribute };

    ghost view = { λ a. all_shown a.values.items };

    ghost invariant = { λ a. IsKept (all_shown a.values.items) };
}

impl Attrs {
    /// The attributes of these values.
    pub fn new(values: Vec<Value>) -> Attrs
        requires { IsKept (all_shown values.items) }
        ensures { result ≡ all_shown values.items }
    {
        Attrs { values }
    }

    /// The values in order of type.
    pub fn values(&self) -> &[Value]
        ensures values { all_shown result.now ≡ self.now }
        ensures kept { IsKept self.now }
    {
        self.values.as_slice()
    }
}

/// Whether a route can be made of the attributes: whether ORIGIN, AS_PATH and NEXT_HOP are there (RFC 4271, section 5).
pub fn has_route(attrs: &Attrs) -> bool
    ensures { result ≡ model.has_route attrs.now }
{
    has(attrs, ORIGIN) && has(attrs, AS_PATH) && has(attrs, NEXT_HOP)
}

/// Whether there is a value of this type.
pub fn has(attrs: &Attrs, kind: u8) -> bool
    ensures { result ≡ is_some (value_of kind attrs.now) }
{
    is_there(attrs.values(), kind)
}

/// Whether there is a value of this type among values.
pub fn is_there(values: &[Value], kind: u8) -> bool
    ensures { result ≡ is_some (value_of kind (all_shown values.now)) }
{
    find(values, kind).is_some()
}

/// The value of a type, where there is one.
pub fn find(values: &[Value], kind: u8) -> Option<&Value>
    ensures value { option_map (λ v. (shown v).value) (option_copied result) ≡ value_of kind (all_shown values.now) }
    ensures kind { IfSome result (λ v. (shown v.now).kind ≡ kind) }
{
    for value in values {
        if value.kind() == kind {
            return Some(value);
        }
    }
    None
}

/// The place of a type among values of rising types.
pub fn place_of(values: &[Value], kind: u8) -> usize
    ensures fits { result ≤ length values.now }
    ensures place { (a : Attribute) → a.kind ≡ kind → insert_by_type a (all_shown values.now)
        ≡ take result (all_shown values.now) ++ a ∷ drop result (all_shown values.now) }
{
    for (place, other) in values.iter().enumerate() {
        if other.kind() >= kind {
            return place;
        }
    }
    values.len()
}

/// Makes room for one value of each recognised type where there is none at all.
fn make_room(values: &mut Vec<Value>) -> Result<(), AllocError>
    ensures { values.new.items ≡ values.old.items }
{
    if values.capacity() == 0 {
        values.reserve(RECOGNISED)?;
    }
    Ok(())
}

/// Puts a value in its place. The first one makes room for others.
pub fn insert(values: &mut Vec<Value>, value: Value) -> Result<(), AllocError>
    ensures { OnOk result (all_shown values.new.items ≡ insert_by_type (shown value) (all_shown values.old.items)) }
{
    make_room(values)?;
    let place = place_of(values, value.kind());
    if place == values.len() {
        values.push(value)?;
    } else {
        values.insert(place, value)?;
    }
    Ok(())
}
