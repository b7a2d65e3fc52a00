//! A shard beside slow code that follows the definitions, over a run of events.

use super::plain::{Plain, route_of};
use super::{
    Link, ROSTER, announce, change, given, lower, next_offer, prefix, raise, route, shard_of,
    view_of, withdraw,
};
use cost_rows::View;
use rcs_shard::Shard;
use roster::read;
use std::alloc::Global;
use std::sync::Arc;
use std::test::Fail;

/// A line, two pairs, links of one direction, and none.
const NETWORKS: [&[Link]; 4] = [
    &[
        (0, 1, 10),
        (1, 0, 10),
        (1, 2, 10),
        (2, 1, 10),
        (2, 3, 5),
        (3, 2, 5),
    ],
    &[(0, 2, 3), (2, 0, 3), (1, 3, 4), (3, 1, 4)],
    &[(0, 1, 1), (1, 2, 1), (2, 0, 1), (2, 3, 7)],
    &[],
];

/// A run of both.
#[derive(Drop)]
struct Run {
    shard: Shard,
    plain: Plain,
    view: Arc<View>,
}

fn start(alloc: Global) -> Result<Run, Fail> {
    let roster = read(alloc, ROSTER)?;
    Ok(Run {
        shard: shard_of(alloc, NETWORKS[0])?,
        plain: Plain::new(alloc)?,
        view: view_of(alloc, &roster, NETWORKS[0])?,
    })
}

/// Whether the cell at a place is the same in both, and so is whether its prefix is pending.
fn is_place_alike(run: &Run, place: u32) -> Result<bool, Fail> {
    let p = prefix(place / 4)?;
    let same_given = given(&run.shard, (place % 4) as u16, p) == run.plain.given(place);
    Ok(same_given && run.shard.is_pending(p) == run.plain.is_pending(place / 4))
}

fn is_alike(run: &Run) -> Result<bool, Fail> {
    for place in 0..24u32 {
        if !is_place_alike(run, place)? {
            return Ok(false);
        }
    }
    Ok(true)
}

/// A slot comes up, or else goes down.
fn toggle(run: &mut Run, slot: u16) {
    if run.plain.is_up(slot as u32) {
        lower(&mut run.shard, slot);
    } else {
        raise(&mut run.shard, slot);
    }
    run.plain.toggle(slot as u32);
}

fn put(alloc: Global, run: &mut Run, place: u32, kind: u32) -> Result<(), Fail> {
    let p = prefix(place / 4)?;
    let route = route(alloc, route_of(kind))?;
    announce(&mut run.shard, (place % 4) as u16, p, route)?;
    run.plain.change(place, Some(kind));
    Ok(())
}

fn remove(run: &mut Run, place: u32) -> Result<(), Fail> {
    withdraw(&mut run.shard, (place % 4) as u16, prefix(place / 4)?);
    run.plain.change(place, None);
    Ok(())
}

fn turn(alloc: Global, run: &mut Run, network: u32) -> Result<(), Fail> {
    let roster = read(alloc, ROSTER)?;
    let links = NETWORKS[(network % 4) as usize];
    let view = view_of(alloc, &roster, links)?;
    run.plain.links(&run.view, &view);
    change(&mut run.shard, view.clone()?);
    run.view = view;
    Ok(())
}

/// One event by its number.
fn step(alloc: Global, run: &mut Run, n: u32) -> Result<(), Fail> {
    let place = n / 8 % 24;
    match n % 8 {
        0 => toggle(run, (place % 4) as u16),
        1 => remove(run, place)?,
        2 => turn(alloc, run, n / 8)?,
        3 | 4 => {
            run.shard.work();
            run.plain.work(alloc, &run.view)?;
        }
        _ => put(alloc, run, place, n / 256 % 6)?,
    }
    Ok(())
}

/// Takes an offer of a slot from both, and answers whether it is the same.
fn take(run: &mut Run, slot: u16) -> Result<bool, Fail> {
    let offered = next_offer(&mut run.shard, slot);
    match run.plain.take(slot as u32) {
        Some(p) => Ok(offered == Some(prefix(p)?)),
        None => Ok(offered.is_none()),
    }
}

#[test]
fn a_run_of_events_goes_as_the_slow_code_does(rt: HostRuntime) -> Result<(), Fail> {
    let alloc = rt.alloc();
    let mut run = start(alloc)?;
    let mut seed = 2026u32;
    for _event in 0..2000u32 {
        seed = seed.wrapping_mul(1_664_525).wrapping_add(1_013_904_223);
        step(alloc, &mut run, seed >> 8)?;
        if seed >> 30 == 0 {
            assert!(rt; take(&mut run, (seed >> 28 & 3) as u16)?);
        }
        assert!(rt; is_alike(&run)?);
    }
    Ok(())
}
