// How a mailbox begins and how it ends.
ghost use Rattle.std.specs.Prelude.{◌≡◌, ◌+◌, ◌<◌, ◌≤◌, ◌∷◌, ◌++◌, [], ℕ, List, true, length, map, All, IfOk, OnErr, OnOk, slice_index_or};
ghost use Rattle.std.specs.Arc.{arc_value};
ghost use Rattle.crossbeam_queue.specs.Passes.{view, IsPassOf, IsSamePass};
ghost use Rattle.mailbox.specs.Mail.{new_sender, new_receiver};
ghost use Rattle.mailbox.specs.Boxes.{sent, received, empties_of, mailbox_at, senders_of, finished, IsSameReceiver, room_of, IsOf, IsNew, entry, Mail};

use crate::ends::{Line, Receiver, Sender, Shared};
use crate::rule::{Enrol, Retire, Take, View};
use crossbeam_queue::Pass;
use rcp_base::NoMemory;
use std::alloc::Global;
use std::collections::VecDeque;
use std::sync::{Arc, Wait};
use std::thread::Parker;

/// A pass for the next sender number.
fn split<M>(shared: &Shared<M>, pass: &mut Pass<(u32, M), View<M>>) -> Pass<(u32, M), View<M>>
    requires queue { IsPassOf shared.now.line pass.old }
    requires reads { (view pass.old).reads ≡ true }
    ensures queue { IsSamePass pass.old pass.new × IsPassOf shared.now.line result }
    ensures receiver { view pass.new ≡ record (view pass.old) { made = (view pass.old).made + 1 } }
    ensures sender { view result ≡ new_sender (view pass.old).made }
{
    shared.line.another::<Enrol>(pass)
}

/// Takes the pass of a sender back.
fn join<M>(shared: &Shared<M>, pass: &mut Pass<(u32, M), View<M>>, other: Pass<(u32, M), View<M>>)
    requires queue { IsPassOf shared.now.line pass.old × IsPassOf shared.now.line other }
    requires reads { (view pass.old).reads ≡ true }
    ensures queue { IsSamePass pass.old pass.new }
    ensures receiver { view pass.new ≡ record (view pass.old) { held = (view pass.old).held ++ (view other).held } }
{
    shared.line.absorb::<Retire>(pass, other);
}

/// Learns what the rule says of the senders that were taken back.
fn learn<M>(shared: &Shared<M>, pass: &mut Pass<(u32, M), View<M>>)
    requires queue { IsPassOf shared.now.line pass.old }
    requires reads { (view pass.old).reads ≡ true }
    ensures queue { IsSamePass pass.old pass.new × (view pass.new ≡ view pass.old) }
    ensures mail { (queued : List (ℕ × M)) × Mail (view pass.old).taken queued (view pass.old).held }
{
    shared.line.learn_as::<Take>(pass);
}

/// The sender with the next number.
fn enrol<M: Drop>(receiver: &mut Receiver<M>, number: u32) -> Result<Sender<M>, NoMemory>
    requires { senders_of receiver.old ≡ number }
    ensures sender { IfOk result (λ s. IsNew receiver.new number s) }
    ensures senders { OnOk result (senders_of receiver.new ≡ number + 1) }
    ensures same { (mailbox_at receiver.new ≡ mailbox_at receiver.old) × (room_of receiver.new ≡ room_of receiver.old) }
    ensures kept { (received receiver.new ≡ received receiver.old) × (finished receiver.new ≡ finished receiver.old) × (empties_of receiver.new ≡ empties_of receiver.old) }
{
    let Ok(shared) = Arc::try_clone(&receiver.shared) else {
        return Err(NoMemory);
    };
    let pass = split(&shared, &mut receiver.pass);
    Ok(Sender {
        shared,
        pass,
        number,
        refusals: 0,
    })
}

/// The senders with the numbers from 0 on.
fn enrol_all<M: Drop>(
    alloc: Global,
    receiver: &mut Receiver<M>,
    senders: u32,
) -> Result<Vec<Sender<M>>, NoMemory>
    requires { senders_of receiver.old ≡ 0 }
    ensures count { IfOk result (λ all. length all.items ≡ senders) }
    ensures each { IfOk result (λ all. (k : ℕ) (d : _) → k < length all.items → IsNew receiver.new k (slice_index_or all.items k d)) }
    ensures senders { OnOk result (senders_of receiver.new ≡ senders) }
    ensures same { room_of receiver.new ≡ room_of receiver.old }
    ensures kept { (received receiver.new ≡ received receiver.old) × (finished receiver.new ≡ finished receiver.old) × (empties_of receiver.new ≡ empties_of receiver.old) }
{
    let mut all = Vec::new(alloc);
    for number in 0..senders {
        let sender = enrol(receiver, number)?;
        if all.push(sender).is_err() {
            return Err(NoMemory);
        }
    }
    Ok(all)
}

/// A mailbox with room for `capacity` messages: its senders, with the numbers from 0 on, and its receiver. Both numbers are
/// at least 1.
pub fn make<M: Drop, R: Wait>(
    _rt: &R,
    alloc: Global,
    senders: u32,
    capacity: usize,
) -> Result<(Vec<Sender<M>>, Receiver<M>), NoMemory>
    requires senders { 1 ≤ senders }
    requires capacity { 1 ≤ capacity }
    ensures count { IfOk result (λ ends. length ends.0.items ≡ senders) }
    ensures each { IfOk result (λ ends. (k : ℕ) (d : _) → k < length ends.0.items → IsNew ends.1 k (slice_index_or ends.0.items k d)) }
    ensures receiver { IfOk result (λ ends. (senders_of ends.1 ≡ senders) × (received ends.1 ≡ []) × (finished ends.1 ≡ []) × (empties_of ends.1 ≡ 0)) }
    ensures room { IfOk result (λ ends. room_of ends.1 ≡ capacity) }
{
    let Ok((line, pass)) = Line::ruled(alloc, capacity) else {
        return Err(NoMemory);
    };
    let parker = Parker::new();
    let Ok(shared) = Arc::new(alloc, Shared { line, parker }) else {
        return Err(NoMemory);
    };
    let mut receiver = Receiver {
        shared,
        pass,
        empties: 0,
    };
    let all = enrol_all(alloc, &mut receiver, senders)?;
    Ok((all, receiver))
}

/// Takes a sender of the receiver's mailbox back.
fn give_back<M: Drop>(sender: Sender<M>, receiver: &mut Receiver<M>)
    requires { IsOf receiver.old sender }
    ensures same { IsSameReceiver receiver.old receiver.new × (received receiver.new ≡ received receiver.old) × (empties_of receiver.new ≡ empties_of receiver.old) }
    ensures finished { finished receiver.new ≡ finished receiver.old ++ entry sender ∷ [] }
{
    let Sender {
        shared: _,
        pass,
        number: _,
        refusals: _,
    } = sender;
    join(&receiver.shared, &mut receiver.pass, pass);
}

/// Takes senders of the receiver's mailbox back. Then for the number of each of them, and of each that was taken back before,
/// what was put under it is what was taken of it and then what is queued of it.
pub fn finish<M: Drop, R: Wait>(_rt: &R, senders: Vec<Sender<M>>, receiver: &mut Receiver<M>)
    requires { All (λ s. IsOf receiver.old s) senders.items }
    ensures same { IsSameReceiver receiver.old receiver.new × (received receiver.new ≡ received receiver.old) × (empties_of receiver.new ≡ empties_of receiver.old) }
    ensures finished { finished receiver.new ≡ finished receiver.old ++ map entry senders.items }
    ensures mail { (queued : List (ℕ × M)) × Mail (received receiver.new) queued (finished receiver.new) }
{
    let mut rest = VecDeque::from_vec(senders);
    while let Some(sender) = rest.pop_front() {
        give_back(sender, receiver);
    }
    learn(&receiver.shared, &mut receiver.pass);
}
