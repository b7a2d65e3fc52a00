//! Records as they are written.

ghost use Rattle.std.specs.Prelude.{◌≡◌, ◌<◌, ◌^◌, length, Err};
ghost use Rattle.outside.specs.Told.{Rose, NeverFalls};
ghost use Rattle.rcp_base.specs.Feed.{letter_of, record_octets};
ghost use Rattle.feed_make.specs.Writes.{Writes};
ghost use Rattle.feed_make.specs.declared.refusal.MakeRefusal.TheVariants as refusals;

use crate::refusal::MakeRefusal;
use feed_format::{Kind, Out, write_out};
use outside::Sink;

/// Writes a record of this kind, with the number of its connection, or 0.
pub fn write_record<K: Sink>(
    sink: &mut K,
    kind: Kind,
    source: u32,
    body: Vec<u8>,
) -> Result<(), MakeRefusal>
    requires { length body.items < 2 ^ 32 }
    ensures octets { Writes (record_octets (record { kind = kind; source = source; body = body.items })) (K.taken sink.old) (K.taken sink.new) result }
    ensures cause { result ≡ Err refusals.Write → Rose (K.faults sink.old) (K.faults sink.new) }
    ensures never_falls { NeverFalls (K.faults sink.old) (K.faults sink.new) }
{
    let out = Out {
        kind: letter_of(kind),
        connection: source,
        body,
    };
    match write_out(&out, sink) {
        Ok(()) => Ok(()),
        Err(_) => Err(MakeRefusal::Write),
    }
}

fn letter_of(kind: Kind) -> u8
    ensures { result ≡ letter_of kind }
{
    match kind {
        Kind::Roster => b'C',
        Kind::Ready => b'E',
        Kind::Raw => b'U',
        Kind::Octets => b'B',
        Kind::Closed => b'X',
        Kind::Links => b'L',
        Kind::Time => b'T',
        Kind::Slice => b'W',
        Kind::Drain => b'D',
        Kind::Finish => b'Z',
    }
}
