//! Rosters in memory.

use crate::read_roster;
use feed_format::Status;
use outside::MemSource;
use rcp_base::RosterWhy;
use std::alloc::Global;
use std::test::Fail;

/// The settings of a roster without routers.
const SETTINGS: &[u8] = b"as 65000\nid 10.0.0.100\nshards 1\nhold 90\narea 0.0.0.0\n";

/// So many octets that begin with these and go on with empty lines.
fn padded(alloc: Global, text: &[u8], len: usize) -> Result<Vec<u8>, Fail> {
    let mut octets = Vec::from_slice(alloc, text)?;
    octets.resize(len, b'\n')?;
    Ok(octets)
}

/// What is read of a source that holds these octets; its read of this number fails.
fn reads(alloc: Global, octets: Vec<u8>, fails: u64) -> Result<Option<Status>, Fail> {
    let mut source = MemSource::new(octets, vec![in alloc; fails]?);
    Ok(read_roster(alloc, &mut source).err())
}

#[test]
fn a_roster_may_have_65536_octets_and_no_more(rt: HostRuntime) -> Result<(), Fail> {
    let alloc = rt.alloc();
    assert_eq!(rt; reads(alloc, padded(alloc, SETTINGS, 65536)?, 0)?, None);
    let long = Status::Roster {
        number: 1,
        line: 1,
        why: RosterWhy::TooMany,
    };
    assert_eq!(rt;
        reads(alloc, padded(alloc, SETTINGS, 65537)?, 0)?,
        Some(long)
    );
    Ok(())
}

#[test]
fn the_first_faulty_line_is_named(rt: HostRuntime) -> Result<(), Fail> {
    let alloc = rt.alloc();
    let fault = Status::Roster {
        number: 1,
        line: 2,
        why: RosterWhy::Word,
    };
    let text = Vec::from_slice(alloc, b"as 65000\nfoo\n")?;
    assert_eq!(rt; reads(alloc, text, 0)?, Some(fault));
    Ok(())
}

#[test]
fn a_failed_read_is_answered(rt: HostRuntime) -> Result<(), Fail> {
    let alloc = rt.alloc();
    assert_eq!(rt;
        reads(alloc, Vec::from_slice(alloc, SETTINGS)?, 2)?,
        Some(Status::Read)
    );
    Ok(())
}
