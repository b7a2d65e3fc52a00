//! The messages that wait for the link.

ghost use Rattle.std.specs.Prelude.{◌≡◌, ◌<◌, ◌++◌, false, true, length, map, OnOk, OnErr, nat_lt, IsTrue, ◌↔◌, ◌⊎◌, []};
ghost use Rattle.outbox.specs.Outs.{OutOf, WritesSome, IsDone, after_message, is_update, empty, front};

use crate::wired::Wired;
use outside::Link;
use rcp_base::NoMemory;
use std::alloc::Global;
use std::collections::VecDeque;
use std::marker::Model;
use std::sync::Wait;

/// The place of the type in a message (RFC 4271 section 4.1).
const TYPE: usize = 18;

/// The type of an UPDATE.
const UPDATE: u8 = 2;

/// How often what waits is tried again by `write_last`.
const LAST_TRIES: u32 = 50;

/// How long `write_last` rests before it tries again, in milliseconds.
const REST: u32 = 20;

/// The messages that wait for the link, in order, of which the first may be written in part.
#[derive(Drop)]
pub struct Outbox {
    waiting: VecDeque<Vec<u8>>,
    /// How many octets of the first one are written.
    written: usize,
    /// How many of the waiting messages there are up to the last UPDATE.
    to_last_update: usize,
    updates: u64,
    failed: bool,
}

impl Model for Outbox {
    ghost use Rattle.std.specs.Prelude.{map};
    ghost use Rattle.outbox.specs.Outs.{OutOf, IsStarted};

    ghost Value = { OutOf };

    ghost view = { λ o. record { waiting = map (λ m. m.items) o.waiting.items; written = o.written; to_last_update = o.to_last_update; updates = o.updates; failed = o.failed } };

    ghost invariant = { λ o. IsStarted o.written (map (λ m. m.items) o.waiting.items) };
}

impl Outbox {
    /// An outbox in which nothing waits.
    pub fn new(alloc: Global) -> Outbox
        ensures { result ≡ empty }
    {
        Outbox {
            waiting: VecDeque::new(alloc),
            written: 0,
            to_last_update: 0,
            updates: 0,
            failed: false,
        }
    }

    /// Puts messages that aren't UPDATEs after those that wait.
    ///
    /// `NoMemory` where there is no room for them. Then none of them waits.
    pub fn push(&mut self, messages: Vec<Vec<u8>>) -> Result<(), NoMemory>
        ensures pushed { OnOk result (self.new ≡ record self.old { waiting = self.old.waiting ++ map (λ m. m.items) messages.items }) }
        ensures same_front { front self.new ≡ front self.old }
        ensures refused { OnErr result (self.new ≡ self.old) }
    {
        let mut more = VecDeque::from_vec(messages);
        Ok(self.waiting.append(&mut more)?)
    }

    /// Puts UPDATEs after the messages that wait.
    ///
    /// `NoMemory` where there is no room for them. Then none of them waits.
    pub fn push_updates(&mut self, messages: Vec<Vec<u8>>) -> Result<(), NoMemory>
        ensures pushed { OnOk result (self.new ≡ record self.old {
          waiting = self.old.waiting ++ map (λ m. m.items) messages.items;
          to_last_update = length (self.old.waiting ++ map (λ m. m.items) messages.items);
        }) }
        ensures same_front { front self.new ≡ front self.old }
        ensures refused { OnErr result (self.new ≡ self.old) }
    {
        self.push(messages)?;
        self.to_last_update = self.waiting.len();
        Ok(())
    }

    /// Whether an UPDATE waits, or one message up to it.
    pub fn has_updates(&self) -> bool
        ensures { result ≡ nat_lt 0 self.now.to_last_update }
    {
        self.to_last_update > 0
    }

    /// Whether nothing waits.
    pub fn is_empty(&self) -> bool
        ensures { IsTrue result ↔ (self.now.waiting ≡ []) }
    {
        self.waiting.is_empty()
    }

    /// Whether the link has failed in a write. Nothing is written from then on.
    pub fn has_failed(&self) -> bool
        ensures { result ≡ self.now.failed }
    {
        self.failed
    }

    /// How many UPDATEs were wholly written. It saturates.
    pub fn updates(&self) -> u64
        ensures { result ≡ self.now.updates }
    {
        self.updates
    }

    /// Writes what waits, in order, until nothing waits or the link takes no more. It waits for nobody.
    pub fn write_to<L: Link, R: Wait>(&mut self, rt: &R, link: &mut L)
        ensures written { WritesSome self.old self.new (⟦<L as Wired>⟧.wire link.old) (⟦<L as Wired>⟧.wire link.new) }
        ensures done { IsDone self.new (⟦<L as Wired>⟧.wire link.old) (⟦<L as Wired>⟧.wire link.new) }
    {
        for _ in rt.forever() {
            if self.failed {
                return;
            }
            if !self.write_once(link) {
                return;
            }
        }
        unreachable!()
    }

    /// Writes what waits, and tries again for about a second where the link takes no more.
    pub fn write_last<L: Link, R: Wait>(&mut self, rt: &R, link: &mut L)
        ensures written { WritesSome self.old self.new (⟦<L as Wired>⟧.wire link.old) (⟦<L as Wired>⟧.wire link.new) }
        ensures done { IsDone self.new (⟦<L as Wired>⟧.wire link.old) (⟦<L as Wired>⟧.wire link.new) }
    {
        self.write_to(rt, link);
        for _ in 0..LAST_TRIES {
            if self.failed || self.waiting.is_empty() {
                return;
            }
            self.rest_and_write(rt, link, REST);
        }
    }

    /// Waits until there may be room, at most so many milliseconds, and writes what waits.
    pub fn rest_and_write<L: Link, R: Wait>(&mut self, rt: &R, link: &mut L, milliseconds: u32)
        ensures written { WritesSome self.old self.new (⟦<L as Wired>⟧.wire link.old) (⟦<L as Wired>⟧.wire link.new) }
        ensures done { IsDone self.new (⟦<L as Wired>⟧.wire link.old) (⟦<L as Wired>⟧.wire link.new) }
    {
        link.wait(milliseconds);
        self.write_to(rt, link);
    }

    /// Writes of the first message what is left. Answers whether to go on.
    fn write_once<L: Link>(&mut self, link: &mut L) -> bool
        requires { self.old.failed ≡ false }
        ensures written { WritesSome self.old self.new (⟦<L as Wired>⟧.wire link.old) (⟦<L as Wired>⟧.wire link.new) }
        ensures done { IsTrue result ⊎ IsDone self.new (⟦<L as Wired>⟧.wire link.old) (⟦<L as Wired>⟧.wire link.new) }
    {
        let Some(message) = self.waiting.front() else {
            return false;
        };
        let (_, rest) = message.split_at(self.written);
        if rest.is_empty() {
            self.next_message();
            return true;
        }
        match link.write(rest) {
            Ok(count) => {
                self.written += count;
                count > 0
            }
            Err(_) => {
                self.failed = true;
                false
            }
        }
    }

    /// The first message is wholly written.
    fn next_message(&mut self)
        ensures { self.new ≡ after_message self.old }
    {
        if let Some(message) = self.waiting.pop_front() {
            if shows_update(&message) {
                self.updates = self.updates.saturating_add(1);
            }
        }
        self.written = 0;
        self.to_last_update = self.to_last_update.saturating_sub(1);
    }
}

/// Whether a message is an UPDATE.
fn shows_update(message: &[u8]) -> bool
    ensures { result ≡ is_update message.now }
{
    message.get(TYPE) == Some(&UPDATE)
}
