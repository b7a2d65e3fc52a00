//! The text of the report.

ghost use Rattle.std.specs.Prelude.{◌≡◌, ◌++◌, length, IfOk, OnOk};
ghost use Rattle.session_report.specs.Reports.{why_text, end_line, place_of, lines_at, report_of};

use rcp_base::{NoMemory, Slot};
use roster::Roster;
use session_serve::{EndWhy, SessionEnd};
use std::alloc::Global;
use std::string::String;

/// The report of these ends, which are given in the order in which their links were accepted. It takes one look at each end for each router.
///
/// `NoMemory` comes where there was no room for the text.
pub fn report_text(alloc: Global, roster: &Roster, ends: &[SessionEnd]) -> Result<Vec<u8>, NoMemory>
    ensures { IfOk result (λ text. text.items ≡ report_of roster.now.members ends.now) }
{
    let mut text = Vec::new(alloc);
    let routers = roster.len();
    for place in 0..routers {
        let router = format!(in alloc; "{}", roster.member(Slot(place)).router)?;
        put_lines(&mut text, alloc, routers, place, &router, ends)?;
    }
    put_lines(&mut text, alloc, routers, routers, "unknown", ends)?;
    Ok(text)
}

/// Puts the lines of the ends at a place, whose router has this text.
fn put_lines(
    text: &mut Vec<u8>,
    alloc: Global,
    routers: u16,
    place: u16,
    router: &str,
    ends: &[SessionEnd],
) -> Result<(), NoMemory>
    ensures { OnOk result (text.new.items ≡ text.old.items ++ lines_at routers place router.now ends.now) }
{
    for end in ends {
        if place_in(routers, end.slot) == place {
            put_line(text, alloc, router, end)?;
        }
    }
    Ok(())
}

/// The place in the report of an end with this slot, where the roster has so many routers: that of its router, or after all of them.
pub fn place_in(routers: u16, slot: Option<Slot>) -> u16
    ensures { result ≡ place_of routers slot }
{
    match slot {
        Some(slot) => slot.0.min(routers),
        None => routers,
    }
}

/// Puts the line of an end.
fn put_line(
    text: &mut Vec<u8>,
    alloc: Global,
    router: &str,
    end: &SessionEnd,
) -> Result<(), NoMemory>
    ensures { OnOk result (text.new.items ≡ text.old.items ++ end_line router.now end.now) }
{
    let why = why_in(alloc, &end.why)?;
    let line = format!(in alloc;
        "session {router} generation {} {why} messages {} updates {}\n",
        end.generation, end.messages, end.updates
    )?;
    text.extend_from_slice(line.as_bytes())?;
    Ok(())
}

/// The text of why a session ended.
fn why_in(alloc: Global, why: &EndWhy) -> Result<String, NoMemory>
    ensures { IfOk result (λ text. text.bytes.items ≡ why_text why.now) }
{
    Ok(match why {
        EndWhy::Fault { code, sub } => format!(in alloc; "fault {code}/{sub}")?,
        EndWhy::Received { code, sub } => format!(in alloc; "received {code}/{sub}")?,
        EndWhy::PeerClosed => format!(in alloc; "peer-closed")?,
        EndWhy::SeatOut(_) => format!(in alloc; "seat-out")?,
        EndWhy::LinkFault => format!(in alloc; "link-fault")?,
        EndWhy::Stopped => format!(in alloc; "stopped")?,
        EndWhy::NoMemory => format!(in alloc; "no-memory")?,
    })
}
