// What is known of a mailbox between any two of its steps, and what each step shows.

use crossbeam_queue::protocol::{Join, Lesson, Outcome, Protocol, Split};
use std::collections::LinkedList;
use std::marker::PhantomData;

/// What a pass knows: whether it receives, and then what it took and how many numbers were given out; and the sender numbers
/// that it holds, each with the messages that were put under it. No value of it is made.
pub struct View<M> {
    pub reads: bool,
    pub taken: LinkedList<(u32, M)>,
    pub made: u64,
    pub held: LinkedList<(u32, LinkedList<M>)>,
}

/// The rule of a mailbox.
pub struct Post<M> {
    of: PhantomData<M>,
}

impl<M> Protocol<(u32, M), View<M>> for Post<M> {
    ghost use Rattle.mailbox.specs.Mail.{IsMail, new_receiver};

    ghost holds = { IsMail };

    ghost first = { new_receiver };
}

/// A new sender gets the next number.
pub struct Enrol;

impl<M> Split<View<M>> for Enrol {
    ghost use Rattle.std.specs.Prelude.{◌+◌};
    ghost use Rattle.mailbox.specs.Mail.{new_sender};

    ghost left = { λ v. record v { made = v.made + 1 } };

    ghost right = { λ v. new_sender v.made };
}

/// The receiver takes a sender back.
pub struct Retire;

impl<M> Join<View<M>> for Retire {
    ghost use Rattle.std.specs.Prelude.{◌++◌};
    ghost use Rattle.mailbox.specs.Mail.{nobody};

    ghost both = { λ v w. record v { held = v.held ++ w.held } };

    ghost spent = { nobody };
}

/// A message was put under the sender's number.
pub struct Put;

impl<M> Outcome<(u32, M), View<M>> for Put {
    ghost use Rattle.std.specs.Prelude.{◌≡◌};
    ghost use Rattle.mailbox.specs.Mail.{put_one};

    ghost then = { λ v m w. w ≡ put_one v m };
}

impl<M> Lesson<(u32, M), View<M>> for Put {
    ghost use Rattle.mailbox.specs.Mail.{Learned};

    ghost fact = { Learned };
}

/// A message was taken, of a number that was given out.
pub struct Take;

impl<M> Outcome<(u32, M), View<M>> for Take {
    ghost use Rattle.std.specs.Prelude.{◌≡◌, ◌<◌};
    ghost use Rattle.mailbox.specs.Mail.{take_one};

    ghost then = { λ v m w. (w ≡ take_one v m) × (m.0 < v.made) };
}

impl<M> Lesson<(u32, M), View<M>> for Take {
    ghost use Rattle.mailbox.specs.Mail.{Learned};

    ghost fact = { Learned };
}
