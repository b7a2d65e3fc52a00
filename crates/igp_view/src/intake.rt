//! A piece of the stream: the packets that it completes, each installed as it comes.

ghost use Rattle.std.specs.Prelude.{◌≡◌, length, true, false, Some, None, is_some, IfOk, OnOk};
ghost use Rattle.rcp_base.specs.OspfPackets.{part, front_of};
ghost use Rattle.igp_view.specs.Streams.{lsas_by, lost_by, stream_after, stream_of};
ghost use Rattle.igp_view.specs.Reading.{Installs};
ghost use Rattle.rcp_model.specs.LinkStateUpdates.{faultless_lsas, left_out};

use crate::igp::IgpGot;
use crate::packets::take_packet;
use lsdb::Lsdb;
use ospf_packet::Framer;
use rcp_base::NoMemory;
use std::alloc::Global;

/// Takes a piece of a stream whose framing may be lost: then nothing comes of it.
pub fn take_piece(
    alloc: Global,
    is_lost: &mut bool,
    framer: &mut Framer,
    lsdb: &mut Lsdb,
    area: u32,
    piece: &[u8],
) -> Result<IgpGot, NoMemory>
    requires { is_lost.old ≡ false → front_of framer.old.held ≡ part }
    ensures state { OnOk result (Installs (lsas_by area (stream_of is_lost.old framer.old) piece.now) lsdb.old lsdb.new) }
    ensures installed { IfOk result (λ got. got.installed ≡ length (faultless_lsas (lsas_by area (stream_of is_lost.old framer.old) piece.now))) }
    ensures left_out { IfOk result (λ got. got.left_out ≡ length (left_out (lsas_by area (stream_of is_lost.old framer.old) piece.now))) }
    ensures lost { IfOk result (λ got. got.lost ≡ lost_by (stream_of is_lost.old framer.old) piece.now) }
    ensures stream { OnOk result (stream_of is_lost.new framer.new ≡ stream_after (stream_of is_lost.old framer.old) piece.now) }
    ensures framed { OnOk result (is_lost.new ≡ false → front_of framer.new.held ≡ part) }
{
    if *is_lost {
        return Ok(NOTHING);
    }
    let got = take_in(alloc, framer, lsdb, area, piece)?;
    *is_lost = got.lost.is_some();
    Ok(got)
}

/// No LSA, and no loss of framing.
const NOTHING: IgpGot = IgpGot {
    installed: 0,
    left_out: 0,
    lost: None,
};

/// Installs the router LSAs of the area in the packets that a piece completes, and counts them.
fn take_in(
    alloc: Global,
    framer: &mut Framer,
    lsdb: &mut Lsdb,
    area: u32,
    piece: &[u8],
) -> Result<IgpGot, NoMemory>
    requires { front_of framer.old.held ≡ part }
    ensures state { OnOk result (Installs (lsas_by area (Some framer.old) piece.now) lsdb.old lsdb.new) }
    ensures installed { IfOk result (λ got. got.installed ≡ length (faultless_lsas (lsas_by area (Some framer.old) piece.now))) }
    ensures left_out { IfOk result (λ got. got.left_out ≡ length (left_out (lsas_by area (Some framer.old) piece.now))) }
    ensures lost { IfOk result (λ got. got.lost ≡ lost_by (Some framer.old) piece.now) }
    ensures stream { IfOk result (λ got. stream_of (is_some got.lost) framer.new ≡ stream_after (Some framer.old) piece.now) }
    ensures framed { IfOk result (λ got. got.lost ≡ None → front_of framer.new.held ≡ part) }
{
    let _held = framer.held_len();
    let _place = framer.place();
    let mut got = NOTHING;
    let mut rest = piece;
    loop {
        let taken = framer.feed(rest);
        let (_, left) = rest.split_at(taken);
        rest = left;
        match framer.next() {
            Ok(Some(packet)) => take_packet(alloc, lsdb, area, packet, &mut got)?,
            Ok(None) => return Ok(got),
            Err(lost) => {
                got.lost = Some(lost.place);
                return Ok(got);
            }
        }
    }
}
