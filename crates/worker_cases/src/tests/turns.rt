// A worker's turns in one thread.

use super::bench::{
    APART, EARLIER, LATER, ONE_SHARD, Parts, announce, announced, next_offer, send_announcement,
    turn, turn_after, up, view,
};
use cost_rows::{Graph, View};
use rcp_base::Slot;
use roster::read;
use shard_worker::{ShardMail, Turned};
use std::alloc::Global;
use std::sync::Wait;
use std::test::Fail;

fn turned(taken: u32, worked: u32, offered: u64, empty: bool) -> Option<Turned> {
    Some(Turned {
        taken,
        worked,
        offered,
        empty,
    })
}

#[test]
fn what_a_router_announces_is_offered_to_the_other(rt: HostRuntime) -> Result<(), Fail> {
    let mut parts = announced(&rt, rt.alloc(), ONE_SHARD, 0, 4)?;
    assert_eq!(rt; turn(&rt, &mut parts, 256), turned(3, 1, 1, true));
    assert_eq!(rt;
        next_offer(&rt, &mut parts.offers, 1),
        Some((1, LATER, true))
    );
    assert_eq!(rt; next_offer(&rt, &mut parts.offers, 1), None);
    assert_eq!(rt; next_offer(&rt, &mut parts.offers, 0), None);
    assert_eq!(rt; turn(&rt, &mut parts, 256), turned(0, 0, 0, true));
    Ok(())
}

#[test]
fn a_budget_bounds_what_a_turn_takes(rt: HostRuntime) -> Result<(), Fail> {
    let mut parts = announced(&rt, rt.alloc(), ONE_SHARD, 0, 4)?;
    assert_eq!(rt; turn(&rt, &mut parts, 2), turned(2, 0, 0, false));
    Ok(())
}

#[test]
fn a_full_mailbox_gets_the_later_prefix_in_a_later_turn(rt: HostRuntime) -> Result<(), Fail> {
    let mut parts = announced(&rt, rt.alloc(), ONE_SHARD, 0, 1)?;
    send_announcement(&rt, rt.alloc(), &mut parts, 0, 0, EARLIER);
    assert_eq!(rt; turn(&rt, &mut parts, 256), turned(4, 2, 1, true));
    assert_eq!(rt;
        next_offer(&rt, &mut parts.offers, 1),
        Some((1, EARLIER, true))
    );
    assert_eq!(rt; turn(&rt, &mut parts, 256), turned(0, 0, 1, true));
    assert_eq!(rt;
        next_offer(&rt, &mut parts.offers, 1),
        Some((1, LATER, true))
    );
    Ok(())
}

/// What a turn does after a slot's announcement by the sender of a number.
fn turn_after_announcement<R: Wait>(
    rt: &R,
    alloc: Global,
    parts: &mut Parts,
    sender: usize,
    slot: u16,
) -> Option<Turned> {
    turn_after(rt, parts, sender, announce(alloc, slot, EARLIER)?)
}

#[test]
fn a_message_out_of_place_changes_nothing(rt: HostRuntime) -> Result<(), Fail> {
    let alloc = rt.alloc();
    let mut parts = announced(&rt, alloc, ONE_SHARD, 0, 4)?;
    turn(&rt, &mut parts, 256);
    let nothing = turned(1, 0, 0, true);
    // Up of a slot that is connected
    assert_eq!(rt; turn_after(&rt, &mut parts, 0, up(0, 1)), nothing);
    // for a slot that isn't connected, or by another's sender
    assert_eq!(rt;
        turn_after_announcement(&rt, alloc, &mut parts, 2, 2),
        nothing
    );
    assert_eq!(rt;
        turn_after_announcement(&rt, alloc, &mut parts, 1, 0),
        nothing
    );
    let down = ShardMail::Down { slot: Slot(0) };
    assert_eq!(rt; turn_after(&rt, &mut parts, 1, down), nothing);
    // A is connected still
    let again = turn_after_announcement(&rt, alloc, &mut parts, 0, 0);
    assert_eq!(rt; again, turned(1, 1, 1, true));
    Ok(())
}

#[test]
fn a_session_comes_back_with_a_higher_generation_alone(rt: HostRuntime) -> Result<(), Fail> {
    let mut parts = announced(&rt, rt.alloc(), ONE_SHARD, 0, 4)?;
    turn(&rt, &mut parts, 256);
    let down = ShardMail::Down { slot: Slot(1) };
    assert_eq!(rt; turn_after(&rt, &mut parts, 1, down), turned(1, 0, 0, true));
    assert_eq!(rt;
        turn_after(&rt, &mut parts, 1, up(1, 1)),
        turned(1, 0, 0, true)
    );
    assert_eq!(rt;
        turn_after(&rt, &mut parts, 1, up(1, 2)),
        turned(1, 1, 1, true)
    );
    next_offer(&rt, &mut parts.offers, 1);
    assert_eq!(rt;
        next_offer(&rt, &mut parts.offers, 1),
        Some((2, LATER, true))
    );
    Ok(())
}

/// What a turn does after the view of no links by the sender of a number: in it B doesn't reach A.
fn turn_after_apart<R: Wait>(
    rt: &R,
    alloc: Global,
    parts: &mut Parts,
    sender: usize,
) -> Option<Turned> {
    let roster = read(alloc, APART).ok()?;
    let view = view(alloc, &roster).ok()?;
    turn_after(rt, parts, sender, ShardMail::View(view))
}

/// What a turn does after a view of no members by the viewer.
fn turn_after_nobody<R: Wait>(rt: &R, alloc: Global, parts: &mut Parts) -> Option<Turned> {
    let graph = Graph::new(alloc).ok()?;
    let view = View::build(alloc, &[], graph).ok()?;
    turn_after(rt, parts, 3, ShardMail::View(view))
}

#[test]
fn a_view_comes_from_the_viewer_alone(rt: HostRuntime) -> Result<(), Fail> {
    let alloc = rt.alloc();
    let mut parts = announced(&rt, alloc, ONE_SHARD, 0, 4)?;
    turn(&rt, &mut parts, 256);
    next_offer(&rt, &mut parts.offers, 1);
    let nothing = turned(1, 0, 0, true);
    assert_eq!(rt; turn_after_apart(&rt, alloc, &mut parts, 0), nothing);
    assert_eq!(rt; turn_after_nobody(&rt, alloc, &mut parts), nothing);
    assert_eq!(rt;
        turn_after_apart(&rt, alloc, &mut parts, 3),
        turned(1, 1, 1, true)
    );
    assert_eq!(rt;
        next_offer(&rt, &mut parts.offers, 1),
        Some((1, LATER, false))
    );
    Ok(())
}
