//! What an UPDATE brings, prefix by prefix (RFC 4271 section 4.3).

ghost use Rattle.std.specs.Prelude.{◌≡◌, [], ◌∷◌, ◌++◌, ◌==◌, true, not, length, map, filter, IfOk, OnOk, None};
ghost use Rattle.std.specs.Int.{w16};
ghost use Rattle.rcp_model.specs.Attributes as attributes;
ghost use Rattle.rcp_base.specs.Maps.{is_among};
ghost use Rattle.session_core.specs.Updates.{HasThose};
ghost use Rattle.rcp_model.specs.Sessions.{Up, Announce, Withdraw, then_also, telling, changes_events};
ghost use Rattle.rcp_model.specs.Updates.{prefixes_in, prefixes_fault, changes_of};
ghost use Rattle.session_core.specs.Shown.{doing_of, event_of};
ghost use Rattle.session_core.specs.Updates.{Says};

use crate::actions::{Actions, SessionEvent};
use crate::update::FaultlessUpdate;
use bgp_msg::next_prefix;
use path_attrs::route;
use rcp_base::{NoMemory, Prefix};
use rcp_model::Route;
use roster::Roster;
use std::alloc::Global;
use std::collections::BTreeSet;

/// Adds that the session is established.
pub fn tell_up(actions: &mut Actions) -> Result<(), NoMemory>
    ensures { OnOk result (doing_of actions.new ≡ then_also (doing_of actions.old) (telling (Up ∷ []))) }
{
    actions.events.push(SessionEvent::Up)?;
    Ok(())
}

/// Adds what a faultless UPDATE changes: the withdrawn routes first, without those that its NLRI announces, and
/// then the NLRI. The prefixes of its NLRI share one copy of the attributes.
pub fn tell_changes(
    alloc: Global,
    roster: &Roster,
    body: &[u8],
    update: &FaultlessUpdate<'_>,
    actions: &mut Actions,
) -> Result<(), NoMemory>
    requires says { Says body.now update.now.withdrawn.now update.now.nlri.now update.now.attrs }
    requires withdrawn { prefixes_fault update.now.withdrawn.now ≡ None }
    requires nlri { prefixes_fault update.now.nlri.now ≡ None }
    requires complete { not (length update.now.nlri.now == 0) ≡ true → attributes.has_route update.now.attrs ≡ true }
    ensures { OnOk result (doing_of actions.new
        ≡ then_also (doing_of actions.old) (telling (changes_events roster.now.as_number (changes_of body.now)))) }
{
    tell_withdrawn(alloc, &mut actions.events, update.withdrawn, update.nlri)?;
    if !update.nlri.is_empty() {
        let route = route(alloc, &update.attrs, roster.as_number())?;
        tell_announced(&mut actions.events, update.nlri, &route)?;
    }
    Ok(())
}

/// Adds that the prefixes of a section are withdrawn, but for those of another one, which is read once.
fn tell_withdrawn(
    alloc: Global,
    events: &mut Vec<SessionEvent>,
    section: &[u8],
    nlri: &[u8],
) -> Result<(), NoMemory>
    requires faultless { prefixes_fault section.now ≡ None }
    requires nlri { prefixes_fault nlri.now ≡ None }
    ensures { OnOk result (map event_of events.new.items
        ≡ map event_of events.old.items ++ map Withdraw (filter (λ p. not (is_among (prefixes_in nlri.now) p)) (prefixes_in section.now))) }
{
    if section.is_empty() {
        return Ok(());
    }
    let announced = prefixes_of(alloc, nlri)?;
    let mut place = 0;
    while let Some((prefix, next)) = next_prefix(section, place) {
        if !announced.contains(&prefix) {
            events.push(SessionEvent::Withdraw { prefix })?;
        }
        place = next;
    }
    Ok(())
}

/// Adds that a route to the prefixes of a section is announced.
fn tell_announced(
    events: &mut Vec<SessionEvent>,
    section: &[u8],
    route: &Route,
) -> Result<(), NoMemory>
    requires faultless { prefixes_fault section.now ≡ None }
    ensures { OnOk result (map event_of events.new.items
        ≡ map event_of events.old.items ++ map (λ p. Announce p route.now) (prefixes_in section.now)) }
{
    let mut place = 0;
    while let Some((prefix, next)) = next_prefix(section, place) {
        let route = route.clone()?;
        events.push(SessionEvent::Announce { prefix, route })?;
        place = next;
    }
    Ok(())
}

/// The prefixes of a section, each once.
fn prefixes_of(alloc: Global, section: &[u8]) -> Result<BTreeSet<Prefix>, NoMemory>
    requires { prefixes_fault section.now ≡ None }
    ensures { IfOk result (λ prefixes. HasThose prefixes (prefixes_in section.now)) }
{
    let mut prefixes = BTreeSet::new(alloc);
    let mut place = 0;
    while let Some((prefix, next)) = next_prefix(section, place) {
        if prefixes.insert(prefix).is_err() {
            return Err(NoMemory);
        }
        place = next;
    }
    Ok(prefixes)
}
