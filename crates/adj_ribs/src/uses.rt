//! The uses of a number that may be there, and parts of what may be there.

ghost use Rattle.std.specs.Prelude.{◌≡◌, IfSome, option_map};
ghost use Rattle.attr_store.specs.Kept.{IsLive};
ghost use Rattle.adj_ribs.specs.Joins.{retained_if, released_if};

use attr_store::AttrStore;
use rcp_base::Prefix;
use rcp_model::RouteNo;
use route_store::Announcer;

/// The number of the route that is announced.
pub fn number_of(from: &Option<Announcer>) -> Option<RouteNo>
    ensures { result ≡ option_map (λ announcer. announcer.1) from.now }
{
    match from {
        Some(announcer) => Some(announcer.route()),
        None => None,
    }
}

/// The prefix of a cell that is found.
pub fn prefix_of(found: &Option<(Prefix, Option<RouteNo>)>) -> Option<Prefix>
    ensures { result ≡ option_map (λ found. found.0) found.now }
{
    match found {
        Some((p, _number)) => Some(*p),
        None => None,
    }
}

/// One use more of the number.
pub fn retain(routes: &mut AttrStore, number: Option<RouteNo>)
    requires { IfSome number (IsLive routes.old) }
    ensures { routes.new ≡ retained_if routes.old number }
{
    if let Some(number) = number {
        routes.retain(number);
    }
}

/// One use less of the number.
pub fn release(routes: &mut AttrStore, number: Option<RouteNo>)
    requires { IfSome number (IsLive routes.old) }
    ensures { routes.new ≡ released_if routes.old number }
{
    if let Some(number) = number {
        routes.release(number);
    }
}
