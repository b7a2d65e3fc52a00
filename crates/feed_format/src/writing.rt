//! Writing records.

ghost use Rattle.std.specs.Prelude.{◌≡◌, ◌^◌, ◌<◌, length, take, OnOk, OnErr};
ghost use Rattle.outside.specs.Told.{Rose, NeverFalls, behind};
ghost use Rattle.rcp_base.specs.Feed.{out_octets};
ghost use Rattle.feed_format.specs.Writing.{WritesLess};

use crate::record::Out;
use outside::{Failed, Sink, write_all};

/// Writes a record: its kind, its connection and the length of its body, then the body.
pub fn write_out<K: Sink>(out: &Out, sink: &mut K) -> Result<(), Failed>
    requires { length out.now.body < 2 ^ 32 }
    ensures ok { OnOk result (K.taken sink.new ≡ behind (K.taken sink.old) (out_octets out.now)) }
    ensures less { OnErr result (WritesLess (out_octets out.now) (K.taken sink.old) (K.taken sink.new)) }
    ensures cause { OnErr result (Rose (K.faults sink.old) (K.faults sink.new)) }
    ensures never_falls { NeverFalls (K.faults sink.old) (K.faults sink.new) }
{
    if let Err((_, failed)) = write_all(sink, &header_of(out)) {
        return Err(failed);
    }
    if let Err((_, failed)) = write_all(sink, &out.body) {
        return Err(failed);
    }
    Ok(())
}

/// The nine octets before the body.
fn header_of(out: &Out) -> [u8; 9]
    requires { length out.now.body < 2 ^ 32 }
    ensures { result ≡ take 9 (out_octets out.now) }
{
    let [c0, c1, c2, c3] = out.connection.to_be_bytes();
    let [l0, l1, l2, l3] = (out.body.len() as u32).to_be_bytes();
    [out.kind, c0, c1, c2, c3, l0, l1, l2, l3]
}
