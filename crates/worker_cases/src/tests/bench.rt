// Three routers A, B and C, a shard over them, and the ends of its mailboxes.
ghost use Rattle.std.specs.Prelude.{◌≡◌, ◌≤◌, ◌<◌, [], length, All, IfOk};
ghost use Rattle.mailbox.specs.Boxes.{sent};
ghost use Rattle.shard_worker.specs.Workers.{IsIdle};

use cost_rows::View;
use igp_view::IgpView;
use mailbox::{Receiver, Sender, make, put, take};
use outside::OpenGate;
use rcp_base::{Addr, NoMemory, Prefix, Slot};
use rcp_model::{Octets, Offer, Route};
use rcs_shard::Shard;
use roster::{Roster, read};
use shard_worker::{ShardMail, Turned, Worker};
use std::alloc::Global;
use std::sync::{Arc, Wait};
use std::test::Fail;

/// A, B and C in a row, with links that cost 10, and one shard.
pub const ONE_SHARD: &[u8] =
    b"as 65000\nid 10.0.0.254\nshards 1\nhold 90\narea 0.0.0.0\nrouter 10.0.0.1 10.0.0.1\nrouter 10.0.0.2 10.0.0.2\nrouter 10.0.0.3 10.0.0.3\nlink 10.0.0.1 10.0.0.2 10\nlink 10.0.0.2 10.0.0.3 10\n";

/// The same with two shards.
pub const TWO_SHARDS: &[u8] =
    b"as 65000\nid 10.0.0.254\nshards 2\nhold 90\narea 0.0.0.0\nrouter 10.0.0.1 10.0.0.1\nrouter 10.0.0.2 10.0.0.2\nrouter 10.0.0.3 10.0.0.3\nlink 10.0.0.1 10.0.0.2 10\nlink 10.0.0.2 10.0.0.3 10\n";

/// A, B and C without links.
pub const APART: &[u8] =
    b"as 65000\nid 10.0.0.254\nshards 1\nhold 90\narea 0.0.0.0\nrouter 10.0.0.1 10.0.0.1\nrouter 10.0.0.2 10.0.0.2\nrouter 10.0.0.3 10.0.0.3\n";

/// ORIGIN IGP, AS_PATH 65001, NEXT_HOP 10.0.0.1 and LOCAL_PREF 100 (RFC 4271 section 4.3).
const ATTRIBUTES: [u8; 25] = [
    64, 1, 1, 0, 64, 2, 4, 2, 1, 253, 233, 64, 3, 4, 10, 0, 0, 1, 64, 5, 4, 0, 0, 0, 100,
];

/// A worker, the senders of its mailbox by slot with the viewer's last, and the receivers of offers by slot.
#[derive(Drop)]
pub struct Parts {
    pub worker: Worker,
    pub mail: Vec<Sender<ShardMail<View>>>,
    pub offers: Vec<Receiver<Offer>>,
}

/// The route of those attributes.
pub fn route(alloc: Global) -> Result<Route, NoMemory> {
    let octets = Octets::from_slice(alloc, &ATTRIBUTES)?;
    Ok(Route {
        pref: 100,
        hops: 1,
        origin: 0,
        neighbour: 65001,
        med: 0,
        looped: false,
        long: false,
        next_hop: Addr(0x0a000001),
        attrs: Arc::new(alloc, octets)?,
    })
}

/// The view of the links in a roster.
pub fn view(alloc: Global, roster: &Roster) -> Result<Arc<View>, NoMemory>
    ensures { IfOk result (λ view. view.value.members ≡ roster.now.members) }
{
    let igp = IgpView::new(alloc, roster)?;
    let view = igp.view()?;
    Ok(view)
}

/// A mailbox of offers with one sender.
fn one_box<R: Wait>(
    rt: &R,
    alloc: Global,
    room: usize,
) -> Result<(Sender<Offer>, Receiver<Offer>), NoMemory>
    requires { 1 ≤ room }
    ensures { IfOk result (λ ends. sent ends.0 ≡ []) }
{
    let (mut senders, receiver) = make(rt, alloc, 1, room)?;
    match senders.pop() {
        Some(sender) => Ok((sender, receiver)),
        None => Err(NoMemory),
    }
}

/// Such a mailbox for each of so many slots.
fn boxes<R: Wait>(
    rt: &R,
    alloc: Global,
    count: usize,
    room: usize,
) -> Result<(Vec<Sender<Offer>>, Vec<Receiver<Offer>>), NoMemory>
    requires { 1 ≤ room }
    ensures count { IfOk result (λ ends. length ends.0.items ≡ count) }
    ensures nothing { IfOk result (λ ends. All (λ sender. sent sender ≡ []) ends.0.items) }
{
    let mut senders = Vec::new(alloc);
    let mut receivers = Vec::new(alloc);
    for _slot in 0..count {
        let (sender, receiver) = one_box(rt, alloc, room)?;
        senders.push(sender)?;
        receivers.push(receiver)?;
    }
    Ok((senders, receivers))
}

/// The shard of a number without sessions.
fn idle(alloc: Global, roster: &Roster, number: u16) -> Result<Shard, NoMemory>
    requires { number < roster.now.shards }
    ensures { IfOk result (λ shard. IsIdle shard) }
{
    let view = view(alloc, roster)?;
    let shard = Shard::new(alloc, roster, number, view)?;
    Ok(shard)
}

/// The shard of a number over a roster's text, without sessions.
fn shard_of(alloc: Global, text: &[u8], number: u16) -> Result<Shard, Fail>
    requires { length text.now ≤ 1000 }
    ensures { IfOk result (λ shard. IsIdle shard) }
{
    let roster = read(alloc, text)?;
    if number >= roster.shards() {
        return Err(Fail::from("a shard of the roster"));
    }
    let shard = idle(alloc, &roster, number)?;
    Ok(shard)
}

/// The worker of a shard without sessions, with a mailbox of four senders, and with room for so many offers of each slot.
fn parts_of<R: Wait>(rt: &R, alloc: Global, shard: Shard, room: usize) -> Result<Parts, NoMemory>
    requires idle { IsIdle shard }
    requires room { 1 ≤ room }
{
    let (senders, offers) = boxes(rt, alloc, shard.members().len(), room)?;
    let (mail, inbox) = make(rt, alloc, 4, 4096)?;
    Ok(Parts {
        worker: Worker::new(shard, inbox, senders),
        mail,
        offers,
    })
}

/// A worker of a shard over the roster's text, with room for so many offers of each slot.
pub fn ends<R: Wait>(
    rt: &R,
    alloc: Global,
    text: &[u8],
    number: u16,
    room: usize,
) -> Result<Parts, Fail>
    requires text { length text.now ≤ 1000 }
    requires room { 1 ≤ room }
{
    let shard = shard_of(alloc, text, number)?;
    Ok(parts_of(rt, alloc, shard, room)?)
}

/// 203.0.113.0/24, and 198.51.100.0/24, which is the lesser one.
pub const LATER: u32 = 0xcb007100;

pub const EARLIER: u32 = 0xc6336400;

/// Puts a message by the sender of a number. Returns whether there was room.
fn send<R: Wait>(
    rt: &R,
    mail: &mut Vec<Sender<ShardMail<View>>>,
    sender: usize,
    message: ShardMail<View>,
) -> bool {
    match mail.get_mut(sender) {
        Some(sender) => put(rt, sender, message).is_ok(),
        None => false,
    }
}

pub fn up(slot: u16, generation: u64) -> ShardMail<View> {
    ShardMail::Up {
        slot: Slot(slot),
        generation,
    }
}

/// That a slot announces the route for the prefix of 24 bits at an address.
pub fn announce(alloc: Global, slot: u16, addr: u32) -> Option<ShardMail<View>> {
    let prefix = Prefix::new(addr, 24)?;
    let route = route(alloc).ok()?;
    Some(ShardMail::Announce {
        slot: Slot(slot),
        prefix,
        route,
    })
}

/// Puts such a message by the sender of a number. Returns whether it was put.
pub fn send_announcement<R: Wait>(
    rt: &R,
    alloc: Global,
    parts: &mut Parts,
    sender: usize,
    slot: u16,
    addr: u32,
) -> bool {
    match announce(alloc, slot, addr) {
        Some(message) => send(rt, &mut parts.mail, sender, message),
        None => false,
    }
}

/// A turn of the worker through an open gate, with this budget. None where memory was refused.
pub fn turn<R: Wait>(rt: &R, parts: &mut Parts, budget: u32) -> Option<Turned> {
    parts.worker.turn(rt, budget, &OpenGate::new()).ok()
}

/// Puts a message by the sender of a number, and returns what a turn then does.
pub fn turn_after<R: Wait>(
    rt: &R,
    parts: &mut Parts,
    sender: usize,
    message: ShardMail<View>,
) -> Option<Turned> {
    send(rt, &mut parts.mail, sender, message);
    turn(rt, parts, 256)
}

/// The next offer to a slot: its generation, the address of its prefix, and whether its attributes are those of the route.
pub fn next_offer<R: Wait>(
    rt: &R,
    offers: &mut Vec<Receiver<Offer>>,
    slot: usize,
) -> Option<(u64, u32, bool)> {
    let (_, offer) = take(rt, offers.get_mut(slot)?)?;
    let same = match &offer.attrs {
        Some(attrs) => attrs.as_slice() == ATTRIBUTES.as_slice(),
        None => false,
    };
    Some((offer.generation, offer.prefix.addr(), same))
}

/// Puts into the mail that A and B are up with generation 1, and that A announces the later prefix.
fn send_first<R: Wait>(rt: &R, alloc: Global, parts: &mut Parts) -> bool {
    send(rt, &mut parts.mail, 0, up(0, 1))
        && send(rt, &mut parts.mail, 1, up(1, 1))
        && send_announcement(rt, alloc, parts, 0, 0, LATER)
}

/// A worker with these messages in its mail, and with room for so many offers of each slot.
pub fn announced<R: Wait>(
    rt: &R,
    alloc: Global,
    text: &[u8],
    number: u16,
    room: usize,
) -> Result<Parts, Fail>
    requires text { length text.now ≤ 1000 }
    requires room { 1 ≤ room }
{
    let mut parts = ends(rt, alloc, text, number, room)?;
    if !send_first(rt, alloc, &mut parts) {
        return Err(Fail::from("room for three messages"));
    }
    Ok(parts)
}
