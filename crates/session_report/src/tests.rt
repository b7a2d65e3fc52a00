//! Reports of ends of each kind.

use crate::report_text;
use rcp_base::Slot;
use roster::{Roster, read};
use session_serve::{EndWhy, SessionEnd};
use std::alloc::Global;
use std::test::Fail;

const ROUTERS: &[u8] =
    b"as 65000\nid 10.0.0.100\nshards 1\nhold 90\narea 0.0.0.0\nrouter 10.0.0.1 10.0.0.1\nrouter 10.0.0.2 10.0.0.2\n";

fn routers(alloc: Global) -> Result<Roster, Fail> {
    match read(alloc, ROUTERS) {
        Ok(roster) => Ok(roster),
        Err(_) => Err("no roster")?,
    }
}

/// An end of the router with this slot.
fn end(why: EndWhy, slot: Option<Slot>, generation: u64) -> SessionEnd {
    SessionEnd {
        why,
        slot,
        generation,
        messages: 2,
        updates: 18446744073709551615,
    }
}

/// The report of these ends.
fn reports(alloc: Global, ends: &[SessionEnd], wanted: &str) -> Result<(), Fail> {
    let roster = routers(alloc)?;
    let text = report_text(alloc, &roster, ends)?;
    if text.as_slice() != wanted.as_bytes() {
        return Err("another report")?;
    }
    Ok(())
}

#[test]
fn no_session_gives_no_line(rt: HostRuntime) -> Result<(), Fail> {
    reports(rt.alloc(), &[], "")
}

#[test]
fn lines_stand_by_router_and_then_by_acceptance(rt: HostRuntime) -> Result<(), Fail> {
    let ends = [
        end(EndWhy::PeerClosed, None, 0),
        end(EndWhy::Fault { code: 4, sub: 0 }, Some(Slot(1)), 3),
        end(EndWhy::LinkFault, Some(Slot(0)), 1),
        end(EndWhy::Received { code: 6, sub: 2 }, None, 0),
        end(EndWhy::PeerClosed, Some(Slot(1)), 4),
    ];
    reports(
        rt.alloc(),
        &ends,
        "session 10.0.0.1 generation 1 link-fault messages 2 updates 18446744073709551615\n\
         session 10.0.0.2 generation 3 fault 4/0 messages 2 updates 18446744073709551615\n\
         session 10.0.0.2 generation 4 peer-closed messages 2 updates 18446744073709551615\n\
         session unknown generation 0 peer-closed messages 2 updates 18446744073709551615\n\
         session unknown generation 0 received 6/2 messages 2 updates 18446744073709551615\n",
    )
}

#[test]
fn a_job_that_was_stopped_or_lacked_memory_says_so(rt: HostRuntime) -> Result<(), Fail> {
    let ends = [
        end(EndWhy::Stopped, None, 0),
        end(EndWhy::NoMemory, None, 0),
    ];
    reports(
        rt.alloc(),
        &ends,
        "session unknown generation 0 stopped messages 2 updates 18446744073709551615\n\
         session unknown generation 0 no-memory messages 2 updates 18446744073709551615\n",
    )
}
