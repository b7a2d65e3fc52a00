//! Reading a roster from its text.

ghost use Rattle.std.specs.Prelude.{◌≡◌, ◌≤◌, length, None, Some, MatchResult};
ghost use Rattle.roster.specs.Form.{NamedInForm};
ghost use Rattle.roster.specs.Rosters.{Reads, Completes, IsRefusal};

use crate::draft::Draft;
use crate::refusal::{RosterRefusal, Stop};
use crate::rosters::Roster;
use crate::words::split_line;
use rcp_base::RosterWhy;
use std::alloc::Global;

/// The roster of a text, or its first faulty line.
///
/// `NoMemory` only where a line of the text names a router or a link, and no line up to it is faulty.
pub fn read(alloc: Global, text: &[u8]) -> Result<Roster, RosterRefusal>
    requires { length text.now ≤ 65536 }
    ensures { Reads text.now result }
{
    let mut draft = Draft::new(alloc);
    let mut line = 1;
    let mut rest = text;
    while let Some((front, more)) = split_line(rest) {
        if let Err(stop) = draft.take(front) {
            return Err(refusal(line, stop));
        }
        line += 1;
        rest = more;
    }
    complete(draft, line)
}

/// The roster that is named, where all settings are. A setting that isn't is missing at this line.
fn complete(draft: Draft, line: u32) -> Result<Roster, RosterRefusal>
    requires { NamedInForm draft }
    ensures { Completes draft line result }
{
    let Some(settings) = draft.settings() else {
        return Err(RosterRefusal::Fault {
            line,
            why: RosterWhy::Missing,
        });
    };
    Ok(Roster {
        settings,
        members: draft.members,
        links: draft.links,
    })
}

fn refusal(line: u32, stop: Stop) -> RosterRefusal
    ensures { IsRefusal line stop result }
{
    match stop {
        Stop::Fault(why) => RosterRefusal::Fault { line, why },
        Stop::NoMemory => RosterRefusal::NoMemory,
    }
}
