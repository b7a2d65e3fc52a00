// The two ends of a mailbox.
ghost use Rattle.std.specs.Prelude.{◌≡◌, true, [], ◌∷◌};
ghost use Rattle.std.specs.Arc.{arc_value};
ghost use Rattle.crossbeam_queue.specs.Passes.{view, IsPassOf};
ghost use Rattle.mailbox.specs.Mail.{put_of};

use crate::rule::{Post, View};
use crossbeam_queue::{Pass, RuledArrayQueue};
use std::sync::Arc;
use std::thread::Parker;

/// The queue of a mailbox: a sender's number and its message, under the rule.
pub(crate) type Line<M> = RuledArrayQueue<(u32, M), View<M>, Post<M>>;

/// What the ends share.
#[derive(Drop)]
pub struct Shared<M> {
    pub(crate) line: Line<M>,
    pub(crate) parker: Parker,
}

/// The end by which one sender puts its messages.
#[derive(Drop)]
pub struct Sender<M> {
    pub(crate) shared: Arc<Shared<M>>,
    pub(crate) pass: Pass<(u32, M), View<M>>,
    pub(crate) number: u32,
    pub(crate) refusals: u64,
    ghost of: { IsPassOf (arc_value shared).line pass },
    ghost holds: { (view pass).held ≡ (number, put_of (view pass)) ∷ [] },
}

/// The end by which the messages of all senders are taken.
#[derive(Drop)]
pub struct Receiver<M> {
    pub(crate) shared: Arc<Shared<M>>,
    pub(crate) pass: Pass<(u32, M), View<M>>,
    pub(crate) empties: u64,
    ghost of: { IsPassOf (arc_value shared).line pass },
    ghost reads: { (view pass).reads ≡ true },
}
