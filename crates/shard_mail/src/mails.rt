//! What a session puts to the shards.

ghost use Rattle.std.specs.Prelude.{◌≡◌, ◌<◌, ◌^◌, ◌∷◌, [], map, length};
ghost use Rattle.rcp_base.specs.IpPrefix.{shard_of_prefix};
ghost use Rattle.rcp_model.specs.declared.rcs_mail.ShardMail.TheVariants as mail;
ghost use Rattle.session_core.specs.Shown.{event_of};
ghost use Rattle.outbox.specs.Outs.{WritesSome};
ghost use Rattle.shard_mail.specs.Puts.{Puts, alone, standing, mail_of, mails_of, is_up_event, reached_up};

use outbox::{Outbox, Wired};
use outside::Link;
use rcp_base::{Prefix, Slot, shard_of};
use seats::{Mail, Seat, SeatNames};
use session_core::SessionEvent;
use std::sync::Wait;

/// How long a session waits for room in a shard's mailbox, in milliseconds, before it tries again.
const ROOM_WAIT: u32 = 5;

/// Puts to the shards what the router reports, in order: `Up` to every shard, a change to the shard of its prefix. Where a mailbox is
/// full it is tried again, and what waits for the link is written meanwhile. Answers whether `Up` was among the events. The
/// seat has 1 to 65,535 shards.
pub fn put_events<B: SeatNames, L: Link, R: Wait>(
    rt: &R,
    link: &mut L,
    out: &mut Outbox,
    seat: &mut Seat<B>,
    events: Vec<SessionEvent>,
) -> bool
    requires some { 0 < length seat.old.senders }
    requires few { length seat.old.senders < 2 ^ 16 }
    ensures put { Puts (mails_of seat.old (map event_of events.items)) seat.old seat.new }
    ensures up { result ≡ reached_up (map event_of events.items) }
    ensures written { WritesSome out.old out.new (⟦<L as Wired>⟧.wire link.old) (⟦<L as Wired>⟧.wire link.new) }
{
    let mut up = false;
    for event in events {
        if is_up(&event) {
            up = true;
        }
        put_event(rt, link, out, seat, event);
    }
    up
}

/// Reports the router down to every shard.
pub fn put_down<B: SeatNames, L: Link, R: Wait>(
    rt: &R,
    link: &mut L,
    out: &mut Outbox,
    seat: &mut Seat<B>,
)
    ensures put { Puts (λ shard. mail.Down seat.old.slot ∷ []) seat.old seat.new }
    ensures written { WritesSome out.old out.new (⟦<L as Wired>⟧.wire link.old) (⟦<L as Wired>⟧.wire link.new) }
{
    put_to_all(rt, link, out, seat, false);
}

/// Whether the session is established by this event.
fn is_up(event: &SessionEvent) -> bool
    ensures { result ≡ is_up_event (event_of event.now) }
{
    match event {
        SessionEvent::Up => true,
        SessionEvent::Announce { .. } => false,
        SessionEvent::Withdraw { .. } => false,
    }
}

/// Puts what one event reports.
fn put_event<B: SeatNames, L: Link, R: Wait>(
    rt: &R,
    link: &mut L,
    out: &mut Outbox,
    seat: &mut Seat<B>,
    event: SessionEvent,
)
    requires some { 0 < length seat.old.senders }
    requires few { length seat.old.senders < 2 ^ 16 }
    ensures put { Puts (mail_of seat.old (event_of event)) seat.old seat.new }
    ensures written { WritesSome out.old out.new (⟦<L as Wired>⟧.wire link.old) (⟦<L as Wired>⟧.wire link.new) }
{
    let slot = seat.slot();
    match event {
        SessionEvent::Up => put_to_all(rt, link, out, seat, true),
        SessionEvent::Announce { prefix, route } => {
            let mail = Mail::Announce {
                slot,
                prefix,
                route,
            };
            put_change(rt, link, out, seat, prefix, mail);
        }
        SessionEvent::Withdraw { prefix } => {
            let mail = Mail::Withdraw { slot, prefix };
            put_change(rt, link, out, seat, prefix, mail);
        }
    }
}

/// Puts a change at a prefix to the shard of the prefix.
fn put_change<B: SeatNames, L: Link, R: Wait>(
    rt: &R,
    link: &mut L,
    out: &mut Outbox,
    seat: &mut Seat<B>,
    prefix: Prefix,
    mail: Mail,
)
    requires some { 0 < length seat.old.senders }
    requires few { length seat.old.senders < 2 ^ 16 }
    ensures put { Puts (alone (shard_of_prefix prefix (length seat.old.senders)) mail) seat.old seat.new }
    ensures written { WritesSome out.old out.new (⟦<L as Wired>⟧.wire link.old) (⟦<L as Wired>⟧.wire link.new) }
{
    let shards = seat.shards() as u16;
    let shard = usize::from(shard_of(prefix, shards));
    put_mail(rt, link, out, seat, shard, mail);
}

/// Reports the router up or down to every shard.
fn put_to_all<B: SeatNames, L: Link, R: Wait>(
    rt: &R,
    link: &mut L,
    out: &mut Outbox,
    seat: &mut Seat<B>,
    up: bool,
)
    ensures put { Puts (λ shard. standing up seat.old.slot seat.old.generation ∷ []) seat.old seat.new }
    ensures written { WritesSome out.old out.new (⟦<L as Wired>⟧.wire link.old) (⟦<L as Wired>⟧.wire link.new) }
{
    let (slot, generation) = (seat.slot(), seat.generation());
    for shard in 0..seat.shards() {
        put_mail(
            rt,
            link,
            out,
            seat,
            shard,
            standing_mail(up, slot, generation),
        );
    }
}

/// The message that the router of a slot is up or down.
fn standing_mail(up: bool, slot: Slot, generation: u64) -> Mail
    ensures { result ≡ standing up slot generation }
{
    if up {
        Mail::Up { slot, generation }
    } else {
        Mail::Down { slot }
    }
}

/// Puts a message to a shard. Where the shard's mailbox is full it is tried again, and what waits for the link is written
/// meanwhile.
fn put_mail<B: SeatNames, L: Link, R: Wait>(
    rt: &R,
    link: &mut L,
    out: &mut Outbox,
    seat: &mut Seat<B>,
    shard: usize,
    mail: Mail,
)
    requires { shard < length seat.old.senders }
    ensures put { Puts (alone shard mail) seat.old seat.new }
    ensures written { WritesSome out.old out.new (⟦<L as Wired>⟧.wire link.old) (⟦<L as Wired>⟧.wire link.new) }
{
    let mut waiting = mail;
    for _ in rt.forever() {
        match seat.put(rt, shard, waiting) {
            Ok(()) => return,
            Err((back, _)) => waiting = back,
        }
        out.rest_and_write(rt, link, ROOM_WAIT);
    }
    unreachable!()
}
