// Workers in threads of their own.

use super::bench::{LATER, ONE_SHARD, TWO_SHARDS, announce, announced, ends, next_offer, turn, up};
use cost_rows::View;
use mailbox::{Receiver, Sender, put};
use outside::{Gate, HeldGate, OpenGate};
use rcp_model::Offer;
use shard_worker::{ShardMail, Worker};
use std::alloc::Global;
use std::sync::Wait;
use std::sync::atomic::{AtomicBool, Ordering};
use std::test::Fail;
use std::thread;
use std::thread::Threads;

/// Turns a worker until the flag is set. Returns whether it had memory.
fn work_until<R: Wait, G: Gate>(rt: &R, worker: &mut Worker, gate: &G, done: &AtomicBool) -> bool {
    let mut fine = true;
    for _ in rt.forever() {
        fine = worker.turn(rt, 256, gate).is_ok();
        if !fine || done.load(Ordering::SeqCst) {
            break;
        }
        thread::yield_now();
    }
    fine
}

/// Polls for the offer of the later prefix to B, and opens the gate then. Returns whether the offer came while the gate was shut.
fn drive<R: Wait>(
    rt: &R,
    offers: &mut Vec<Receiver<Offer>>,
    gate: &HeldGate,
    done: &AtomicBool,
) -> bool {
    let mut came = false;
    for _ in rt.forever() {
        if next_offer(rt, offers, 1) == Some((1, LATER, true)) {
            came = !gate.is_open() && !gate.starved();
            break;
        }
        if gate.starved() {
            break;
        }
        thread::yield_now();
    }
    gate.open();
    done.store(true, Ordering::SeqCst);
    came
}

/// Two workers, of which the gate holds the first, and the driver.
fn run_gated<R: Threads + Wait + Sync>(
    rt: &R,
    held: &mut Worker,
    free: &mut Worker,
    offers: &mut Vec<Receiver<Offer>>,
) -> bool {
    let gate = HeldGate::new(0);
    let done = AtomicBool::new(false);
    let (came, _) = thread::join_mut(
        rt,
        &mut || drive(rt, offers, &gate, &done),
        &mut || {
            thread::join_mut(
                rt,
                &mut || work_until(rt, held, &gate, &done),
                &mut || work_until(rt, free, &gate, &done),
            )
        },
    );
    came
}

#[test]
fn a_shard_works_while_another_is_held(rt: HostRuntime) -> Result<(), Fail> {
    let mut held = ends(&rt, rt.alloc(), TWO_SHARDS, 0, 4)?;
    let mut free = announced(&rt, rt.alloc(), TWO_SHARDS, 1, 4)?;
    let came = run_gated(&rt, &mut held.worker, &mut free.worker, &mut free.offers);
    assert_eq!(rt; came, true);
    Ok(())
}

/// So many prefixes are announced in the test of sessions.
const PREFIXES: u32 = 1000;

/// Puts a message once there is room.
fn put_in_time<R: Wait>(rt: &R, sender: &mut Sender<ShardMail<View>>, message: ShardMail<View>) {
    let mut message = Some(message);
    for _ in rt.forever() {
        let Some(m) = message.take() else {
            break;
        };
        if let Err((m, _)) = put(rt, sender, m) {
            message = Some(m);
            thread::yield_now();
        }
    }
}

/// A session that comes up and announces so many prefixes.
fn announce_all<R: Wait>(
    rt: &R,
    alloc: Global,
    sender: &mut Sender<ShardMail<View>>,
    slot: u16,
    count: u32,
) {
    put_in_time(rt, sender, up(slot, 1));
    for number in 0..count {
        if let Some(message) = announce(alloc, slot, number << 8) {
            put_in_time(rt, sender, message);
        }
    }
}

/// Turns a worker until so many messages were taken.
fn work_through<R: Wait>(rt: &R, worker: &mut Worker, count: u32) -> bool {
    let mut left = count;
    for _ in rt.forever() {
        let Ok(turned) = worker.turn(rt, 64, &OpenGate::new()) else {
            return false;
        };
        left = left.saturating_sub(turned.taken);
        if left == 0 {
            break;
        }
        thread::yield_now();
    }
    true
}

/// Two sessions and the worker of their shard, each in a thread of its own.
fn run_sessions<R: Threads + Wait + Sync>(
    rt: &R,
    alloc: Global,
    worker: &mut Worker,
    announcer: &mut Sender<ShardMail<View>>,
    listener: &mut Sender<ShardMail<View>>,
) -> bool {
    let (worked, _) = thread::join_mut(
        rt,
        &mut || work_through(rt, worker, PREFIXES + 2),
        &mut || {
            thread::join_mut(
                rt,
                &mut || announce_all(rt, alloc, announcer, 0, PREFIXES),
                &mut || put_in_time(rt, listener, up(1, 1)),
            )
        },
    );
    worked
}

/// How many offers B gets, and the sum of their prefixes' numbers.
fn heard<R: Wait>(rt: &R, offers: &mut Vec<Receiver<Offer>>) -> (u64, u64) {
    let mut count = 0u64;
    let mut sum = 0u64;
    for _ in 0..4 * PREFIXES {
        let Some((_, addr, _)) = next_offer(rt, offers, 1) else {
            break;
        };
        count = count.saturating_add(1);
        sum = sum.saturating_add(u64::from(addr >> 8));
    }
    (count, sum)
}

/// The senders of A and B, taken out of the senders by slot.
fn two_senders(
    mail: &mut Vec<Sender<ShardMail<View>>>,
) -> Option<(Sender<ShardMail<View>>, Sender<ShardMail<View>>)> {
    mail.truncate(2);
    let listener = mail.pop()?;
    let announcer = mail.pop()?;
    Some((announcer, listener))
}

#[test]
fn each_prefix_is_offered_once_however_the_threads_run(rt: HostRuntime) -> Result<(), Fail> {
    let alloc = rt.alloc();
    let mut parts = ends(&rt, alloc, ONE_SHARD, 0, 4096)?;
    let Some((mut announcer, mut listener)) = two_senders(&mut parts.mail) else {
        return Err(Fail::from("two senders"));
    };
    let worked = run_sessions(&rt, alloc, &mut parts.worker, &mut announcer, &mut listener);
    assert_eq!(rt; worked, true);
    turn(&rt, &mut parts, PREFIXES);
    assert_eq!(rt; heard(&rt, &mut parts.offers), (1000, 499500));
    Ok(())
}
