//! Daemons whose routers wait for one another.

use super::links::{
    Gates, KEEPALIVE, Links, NOTIFICATION, UPDATE, is_opened_in_time, octets_of, open, shut,
};
use super::{BARE, LINKED, Seen, run_over};
use crate::Status;
use outside::{HeldGate, OpenGate};
use std::alloc::Global;
use std::sync::Arc;
use std::test::Fail;

/// An UPDATE of 10.0.0.1: 203.0.113.0/24 by AS 65001 with LOCAL_PREF 100 (RFC 4271 section 4.3).
const ANNOUNCED: &[u8] =
    b"\xff\xff\xff\xff\xff\xff\xff\xff\xff\xff\xff\xff\xff\xff\xff\xff\x00\x34\x02\x00\x00\x00\x19\x40\x01\x01\x00\x40\x02\x04\x02\x01\xfd\xe9\x40\x03\x04\x0a\x00\x00\x01\x40\x05\x04\x00\x00\x00\x64\x18\xcb\x00\x71";

/// An UPDATE of 10.0.0.3 with the same prefix and path, and LOCAL_PREF 200.
const PREFERRED: &[u8] =
    b"\xff\xff\xff\xff\xff\xff\xff\xff\xff\xff\xff\xff\xff\xff\xff\xff\x00\x34\x02\x00\x00\x00\x19\x40\x01\x01\x00\x40\x02\x04\x02\x01\xfd\xe9\x40\x03\x04\x0a\x00\x00\x03\x40\x05\x04\x00\x00\x00\xc8\x18\xcb\x00\x71";

/// An LS Update of area 0 with the router LSA of 10.0.0.1, which has a link of metric 10 to 10.0.0.2 (RFC 2328 sections A.3.5 and A.4.2).
const LSA_OF_THE_FIRST: &[u8] =
    b"\x02\x04\x00\x40\x0a\xff\x00\x01\x00\x00\x00\x00\x00\x00\x00\x00\x00\x00\x00\x00\x00\x00\x00\x00\x00\x00\x00\x01\x00\x01\x02\x01\x0a\x00\x00\x01\x0a\x00\x00\x01\x80\x00\x00\x01\xce\x5a\x00\x24\x00\x00\x00\x01\x0a\x00\x00\x02\x00\x00\x00\x00\x01\x00\x00\x0a";

/// An LS Update with the router LSAs of 10.0.0.2 and 10.0.0.3, which have a link to 10.0.0.1, and to each other, of metric 10.
const LSAS_OF_THE_OTHERS: &[u8] =
    b"\x02\x04\x00\x70\x0a\xff\x00\x01\x00\x00\x00\x00\x00\x00\x00\x00\x00\x00\x00\x00\x00\x00\x00\x00\x00\x00\x00\x02\x00\x01\x02\x01\x0a\x00\x00\x02\x0a\x00\x00\x02\x80\x00\x00\x01\x1c\xe6\x00\x30\x00\x00\x00\x02\x0a\x00\x00\x01\x00\x00\x00\x00\x01\x00\x00\x0a\x0a\x00\x00\x03\x00\x00\x00\x00\x01\x00\x00\x0a\x00\x01\x02\x01\x0a\x00\x00\x03\x0a\x00\x00\x03\x80\x00\x00\x01\xae\x76\x00\x24\x00\x00\x00\x01\x0a\x00\x00\x02\x00\x00\x00\x00\x01\x00\x00\x0a";

#[test]
fn the_second_connection_of_a_router_finds_its_seat_out(rt: HostRuntime) -> Result<(), Fail> {
    let alloc = rt.alloc();
    let (claimed, refused) = (shut(alloc)?, shut(alloc)?);
    let first = Gates {
        before: open(alloc)?,
        after: refused.clone()?,
        at: KEEPALIVE,
        opens: vec![in alloc; claimed.clone()?]?,
    };
    let second = Gates {
        before: claimed,
        after: open(alloc)?,
        at: NOTIFICATION,
        opens: vec![in alloc; refused]?,
    };
    let links = Links::new(alloc)
        .with(octets_of(alloc, 1, &[])?, first)?
        .with(octets_of(alloc, 1, &[])?, second)?;
    let mut net = links.into_net(Links::new(alloc));
    let Seen { status, report } = run_over(&rt, alloc, LINKED, "2", &mut net, &OpenGate::new())?;
    assert!(rt; status == Status::Done);
    let wanted =
        b"session 10.0.0.1 generation 1 peer-closed messages 2 updates 0\nsession 10.0.0.1 generation 0 seat-out messages 1 updates 0\n".as_slice();
    assert_eq!(rt; report.as_slice(), wanted);
    Ok(())
}

/// The links of three routers. The first announces a prefix; at its first UPDATE the second opens `better`, by which the third begins, which announces it with a higher LOCAL_PREF; at its second
/// one it opens `held`, by which all end.
fn three_links(alloc: Global, better: &Arc<HeldGate>, held: &Arc<HeldGate>) -> Result<Links, Fail> {
    let mut opens = Vec::new(alloc);
    opens.push(better.clone()?)?;
    opens.push(held.clone()?)?;
    let first = silent(alloc, open(alloc)?, held.clone()?);
    let second = Gates {
        before: open(alloc)?,
        after: held.clone()?,
        at: UPDATE,
        opens,
    };
    let third = silent(alloc, better.clone()?, held.clone()?);
    Ok(
        Links::new(alloc)
            .with(octets_of(alloc, 1, ANNOUNCED)?, first)?
            .with(octets_of(alloc, 2, &[])?, second)?
            .with(octets_of(alloc, 3, PREFERRED)?, third)?,
    )
}

/// The gates of a link that opens none.
fn silent(alloc: Global, before: Arc<HeldGate>, after: Arc<HeldGate>) -> Gates {
    Gates {
        before,
        after,
        at: UPDATE,
        opens: Vec::new(alloc),
    }
}

#[test]
fn a_shard_is_served_while_the_other_shard_is_held(rt: HostRuntime) -> Result<(), Fail> {
    let alloc = rt.alloc();
    let (better, held) = (shut(alloc)?, shut(alloc)?);
    let mut net = three_links(alloc, &better, &held)?.into_net(Links::new(alloc));
    let Seen { status, report: _ } = run_over(&rt, alloc, LINKED, "3", &mut net, &*held)?;
    assert!(rt; status == Status::Done);
    assert!(rt; is_opened_in_time(&better));
    assert!(rt; is_opened_in_time(&held));
    Ok(())
}

/// Two streams of link state: there is a way between 10.0.0.1 and 10.0.0.2 only once both were read.
fn two_streams(alloc: Global) -> Result<Links, Fail> {
    let first = silent(alloc, open(alloc)?, open(alloc)?);
    let second = silent(alloc, open(alloc)?, open(alloc)?);
    Ok(
        Links::new(alloc)
            .with(Vec::from_slice(alloc, LSA_OF_THE_FIRST)?, first)?
            .with(Vec::from_slice(alloc, LSAS_OF_THE_OTHERS)?, second)?,
    )
}

#[test]
fn two_streams_of_link_state_together_make_a_route_reachable(rt: HostRuntime) -> Result<(), Fail> {
    let alloc = rt.alloc();
    let reached = shut(alloc)?;
    let first = silent(alloc, open(alloc)?, reached.clone()?);
    let second = Gates {
        before: open(alloc)?,
        after: reached.clone()?,
        at: UPDATE,
        opens: vec![in alloc; reached.clone()?]?,
    };
    let links = Links::new(alloc)
        .with(octets_of(alloc, 1, ANNOUNCED)?, first)?
        .with(octets_of(alloc, 2, &[])?, second)?;
    let mut net = links.into_net(two_streams(alloc)?);
    let Seen { status, report: _ } = run_over(&rt, alloc, BARE, "2", &mut net, &OpenGate::new())?;
    assert!(rt; status == Status::Done);
    assert!(rt; is_opened_in_time(&reached));
    Ok(())
}
