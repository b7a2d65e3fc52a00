// The steps of a mailbox.
ghost use Rattle.std.specs.Prelude.{◌≡◌, ◌∷◌, ◌++◌, [], ◌<◌, true, MatchResult, MatchOption, OnOk, OnErr, IfErr, IfSome, IfNone, OnSome, ℕ, List};
ghost use Rattle.crossbeam_queue.specs.Passes.{view, IsPassOf, IsSamePass, ruled_capacity};
ghost use Rattle.mailbox.specs.Mail.{put_of, take_one};
ghost use Rattle.mailbox.specs.Boxes.{counted, sent, number_of, refusals_of, capacity_of, IsSameSender, received, empties_of, finished, senders_of, IsSameReceiver, Mail, WasFull};

use crate::ends::{Receiver, Sender, Shared};
use crate::rule::{Put, Take, View};
use crossbeam_queue::Pass;
use std::sync::Wait;

/// The mailbox was full.
#[derive(Clone, Copy, Debug, PartialEq, Eq)]
pub struct Full;

/// Puts a message under the number, at the end of the queue, and wakes the receiver; or hands the message back.
fn push<M, R: Wait>(
    rt: &R,
    shared: &Shared<M>,
    pass: &mut Pass<(u32, M), View<M>>,
    number: u32,
    m: M,
) -> Result<(), M>
    requires queue { IsPassOf shared.now.line pass.old }
    requires holds { (view pass.old).held ≡ (number, put_of (view pass.old)) ∷ [] }
    ensures queue { IsSamePass pass.old pass.new }
    ensures holds { (view pass.new).held ≡ (number, put_of (view pass.new)) ∷ [] }
    ensures rule { MatchResult result
        (λ _. put_of (view pass.new) ≡ put_of (view pass.old) ++ m ∷ [])
        (λ back. (back ≡ m) × (view pass.new ≡ view pass.old)) }
    ensures full { OnErr result (WasFull (ruled_capacity shared.now.line) number (put_of (view pass.old))) }
{
    match shared.line.push_as::<Put, R>(rt, pass, (number, m)) {
        Ok(()) => {
            shared.parker.unpark();
            Ok(())
        }
        Err((_, m)) => Err(m),
    }
}

/// Takes the oldest message, if there is one.
fn pop<M, R: Wait>(
    rt: &R,
    shared: &Shared<M>,
    pass: &mut Pass<(u32, M), View<M>>,
) -> Option<(u32, M)>
    requires queue { IsPassOf shared.now.line pass.old }
    requires reads { (view pass.old).reads ≡ true }
    ensures queue { IsSamePass pass.old pass.new }
    ensures rule { MatchOption result
        (view pass.new ≡ view pass.old)
        (λ m. (view pass.new ≡ take_one (view pass.old) m) × (m.0 < (view pass.old).made)) }
    ensures none { IfNone result (Mail (view pass.old).taken [] (view pass.old).held) }
    ensures reads { (view pass.new).reads ≡ true }
{
    shared.line.pop_as::<Take, R>(rt, pass)
}

/// Puts a message at the end of the sender's mailbox. It waits for nobody.
pub fn put<M, R: Wait>(rt: &R, sender: &mut Sender<M>, m: M) -> Result<(), (M, Full)>
    ensures same { IsSameSender sender.old sender.new }
    ensures put { OnOk result ((sent sender.new ≡ sent sender.old ++ m ∷ []) × (refusals_of sender.new ≡ refusals_of sender.old)) }
    ensures full { IfErr result (λ e. (e.0 ≡ m) × (sent sender.new ≡ sent sender.old) × (refusals_of sender.new ≡ counted (refusals_of sender.old))) }
    ensures cause { OnErr result (WasFull (capacity_of sender.old) (number_of sender.old) (sent sender.old)) }
{
    match push(rt, &sender.shared, &mut sender.pass, sender.number, m) {
        Ok(()) => Ok(()),
        Err(m) => {
            sender.refusals = sender.refusals.saturating_add(1);
            Err((m, Full))
        }
    }
}

/// Takes the oldest message of the receiver's mailbox, with its sender's number. It waits for nobody.
pub fn take<M, R: Wait>(rt: &R, receiver: &mut Receiver<M>) -> Option<(u32, M)>
    ensures same { IsSameReceiver receiver.old receiver.new × (finished receiver.new ≡ finished receiver.old) }
    ensures taken { IfSome result (λ m. (received receiver.new ≡ received receiver.old ++ m ∷ []) × (empties_of receiver.new ≡ empties_of receiver.old)) }
    ensures none { IfNone result ((received receiver.new ≡ received receiver.old) × (empties_of receiver.new ≡ counted (empties_of receiver.old))) }
    ensures cause { IfNone result (Mail (received receiver.old) [] (finished receiver.old)) }
    ensures number { IfSome result (λ m. m.0 < senders_of receiver.old) }
{
    let taken = pop(rt, &receiver.shared, &mut receiver.pass);
    if taken.is_none() {
        receiver.empties = receiver.empties.saturating_add(1);
    }
    taken
}
