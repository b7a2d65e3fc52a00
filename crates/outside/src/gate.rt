// Where a worker can be held.

use std::sync::atomic::{AtomicBool, AtomicU64, Ordering};
use std::thread;

/// What a worker passes at the start of each turn, with its number.
pub trait Gate {
    /// Lets the thread through, at once or later.
    fn pass(&self, point: u32);
}

/// A gate that holds nobody.
#[derive(Clone, Copy, Debug, Default, Drop)]
pub struct OpenGate;

impl OpenGate {
    pub fn new() -> OpenGate {
        OpenGate
    }
}

impl Gate for OpenGate {
    fn pass(&self, _point: u32) {}
}

/// After so many polls a held gate lets its threads through.
const POLLS: u64 = 1_000_000;

/// A gate that holds one point until it is opened, or until it has starved: until 1,000,000 polls were made of it while
/// it was shut. So a test whose threads wait for one another in vain fails instead of hanging.
#[derive(Drop)]
pub struct HeldGate {
    point: u32,
    opened: AtomicBool,
    starved: AtomicBool,
    polls: AtomicU64,
}

impl HeldGate {
    /// A gate that is shut, and holds this point.
    pub fn new(point: u32) -> HeldGate {
        HeldGate {
            point,
            opened: AtomicBool::new(false),
            starved: AtomicBool::new(false),
            polls: AtomicU64::new(0),
        }
    }

    /// Opens the gate for good.
    pub fn open(&self) {
        self.opened.store(true, Ordering::SeqCst);
    }

    /// Whether the gate was opened.
    pub fn is_open(&self) -> bool {
        self.opened.load(Ordering::SeqCst)
    }

    /// Whether the polls ran out while the gate was shut. It stays so, also where the gate is opened later.
    pub fn starved(&self) -> bool {
        self.starved.load(Ordering::SeqCst)
    }

    /// One poll: whether the gate lets through. Where it doesn't, the thread yields.
    pub(crate) fn lets_through(&self) -> bool {
        if self.is_open() || self.starved() {
            return true;
        }
        if self.polls.fetch_add(1, Ordering::SeqCst) >= POLLS - 1 {
            self.starved.store(true, Ordering::SeqCst);
            return true;
        }
        thread::yield_now();
        false
    }
}

impl Gate for HeldGate {
    fn pass(&self, point: u32) {
        if point != self.point {
            return;
        }
        for _ in 0..POLLS {
            if self.lets_through() {
                return;
            }
        }
    }
}
