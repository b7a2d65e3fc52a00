// One stream of link state.
ghost use Rattle.std.specs.Prelude.{◌≡◌, ◌+◌, ◌<◌, ◌≤◌, ◌||◌, ℕ, false, length, take, is_some, is_err, IsTrue, IfOk, OnOk, IfErr, OnErr};
ghost use Rattle.ospf_packet.specs.Framing.{at_start};
ghost use Rattle.outside.specs.Told.{Rose, NeverFalls, behind};
ghost use Rattle.rcp_model.specs.LinkStateUpdates.{faultless_lsas, left_out};
ghost use Rattle.igp_view.specs.Igp.{IsOfSameRoster};
ghost use Rattle.igp_view.specs.Streams.{lsas_by, lost_by};
ghost use Rattle.viewer_run.specs.declared.stream.StreamWhy.TheVariants as end_by;
ghost use Rattle.viewer_run.specs.Viewing.{HasShown, HasTakenPiece, HasServed, at_most, ran_out};

use crate::views::pass_on;
use cost_rows::View;
use igp_view::{IgpGot, IgpView};
use mailbox::Sender;
use outside::{Clock, Link, LinkRead, StopMark};
use rcp_base::NoMemory;
use rcp_model::rcs_mail::ShardMail;
use std::alloc::Global;
use std::sync::Wait;

/// Why a stream ended.
#[derive(Clone, Copy, Debug, PartialEq, Eq)]
pub enum StreamWhy {
    /// The link ended.
    End,
    /// The link failed.
    LinkFault,
    /// The mark was read set.
    Stopped,
    /// Memory was refused.
    NoMemory,
}

/// How a stream ended.
#[derive(Clone, Copy, Debug, PartialEq, Eq)]
pub struct StreamEnd {
    pub why: StreamWhy,
    /// How many faultless router LSAs of the area came, whatever became of them: at most 2^64 - 1.
    pub installed: u64,
    /// How many faulty ones, a packet that is shorter than its count of LSAs among them: at most 2^64 - 1.
    pub left_out: u64,
    /// Whether the octets lost the framing.
    pub lost: bool,
}

impl StreamWhy {
    /// Whether memory was refused.
    pub fn ran_out(&self) -> bool
        ensures { result ≡ ran_out self.now }
    {
        matches!(self, StreamWhy::NoMemory)
    }
}

/// What came of a stream so far.
#[derive(Drop)]
struct Counts {
    installed: u64,
    left_out: u64,
    lost: bool,
}

impl Counts {
    /// Begins a stream: what was held of the one before is forgotten.
    fn begin(igp: &mut IgpView) -> Counts
        ensures restarted { igp.new ≡ record igp.old { stream = Some at_start } }
        ensures none { result ≡ record { installed = 0; left_out = 0; lost = false } }
    {
        igp.restart();
        Counts {
            installed: 0,
            left_out: 0,
            lost: false,
        }
    }

    fn add(&mut self, got: &IgpGot)
        ensures installed { self.new.installed ≡ at_most (self.old.installed + got.now.installed) }
        ensures left_out { self.new.left_out ≡ at_most (self.old.left_out + got.now.left_out) }
        ensures lost { self.new.lost ≡ (self.old.lost || is_some got.now.lost) }
    {
        self.installed = self.installed.saturating_add(got.installed);
        self.left_out = self.left_out.saturating_add(got.left_out);
        self.lost = self.lost || got.lost.is_some();
    }
}

/// So many octets are read at once.
const PIECE: usize = 16_384;

/// The longest rest of a stream that has nothing to read, in milliseconds.
const REST: u32 = 1_000;

/// Takes a piece at the clock's time, and puts a view to every shard where the edges changed by it.
pub(crate) fn take_piece<R: Wait, C: Clock>(
    rt: &R,
    alloc: Global,
    piece: &[u8],
    clock: &C,
    igp: &mut IgpView,
    shards: &mut [Sender<ShardMail<View>>],
) -> Result<IgpGot, NoMemory>
    ensures taken { OnOk result ((time : ℕ) × IsTrue (C.can_give clock.now time) × HasTakenPiece (time, piece.now) igp.old igp.new) }
    ensures installed { IfOk result (λ got. got.installed ≡ length (faultless_lsas (lsas_by igp.old.area igp.old.stream piece.now))) }
    ensures left_out { IfOk result (λ got. got.left_out ≡ length (left_out (lsas_by igp.old.area igp.old.stream piece.now))) }
    ensures lost { IfOk result (λ got. got.lost ≡ lost_by igp.old.stream piece.now) }
    ensures shown { HasShown (is_err result) igp.old igp.new shards.old shards.new }
    ensures roster { IsOfSameRoster igp.old igp.new }
{
    let before = igp.changes();
    let now = clock.now();
    let got = igp.octets(piece, now)?;
    pass_on(rt, alloc, before, igp, shards)?;
    Ok(got)
}

/// Reads what has come of a stream into the front of the buffer: how many octets, none where nothing had come, or why the stream ends.
fn read_some<L: Link>(link: &mut L, buf: &mut [u8]) -> Result<usize, StreamWhy>
    requires { 0 < length buf.old }
    ensures given { IfOk result (λ count. (count ≤ length buf.new) × (L.given link.new ≡ behind (L.given link.old) (take count buf.new))) }
    ensures none { OnErr result (L.given link.new ≡ L.given link.old) }
    ensures end { IfErr result (λ why. why ≡ end_by.End → Rose (L.ends link.old) (L.ends link.new)) }
    ensures fault { IfErr result (λ why. why ≡ end_by.LinkFault → Rose (L.faults link.old) (L.faults link.new)) }
    ensures why { IfErr result (λ why. (ran_out why ≡ false) × (why ≡ end_by.Stopped → ⊥)) }
    ensures ends { OnOk result (L.ends link.new ≡ L.ends link.old) }
    ensures faults { NeverFalls (L.faults link.old) (L.faults link.new) }
{
    match link.read(buf) {
        Ok(LinkRead::Octets(count)) => Ok(count),
        Ok(LinkRead::NotReady) => Ok(0),
        Ok(LinkRead::End) => Err(StreamWhy::End),
        Err(_) => Err(StreamWhy::LinkFault),
    }
}

/// Rests until something may have come, where a read gave nothing.
fn rest_if_idle<L: Link>(link: &mut L, count: usize)
    ensures given { L.given link.new ≡ L.given link.old }
    ensures ends { L.ends link.new ≡ L.ends link.old }
    ensures faults { NeverFalls (L.faults link.old) (L.faults link.new) }
{
    if count == 0 {
        link.wait(REST);
    }
}

/// Reads a stream as `serve_stream` does. Returns why it ended, and what came of it.
fn read_pieces<R: Wait, L: Link, C: Clock>(
    rt: &R,
    alloc: Global,
    link: &mut L,
    clock: &C,
    igp: &mut IgpView,
    shards: &mut [Sender<ShardMail<View>>],
    stop: &StopMark,
) -> (StreamWhy, Counts)
    ensures served { ran_out result.0 ≡ false → HasServed (C.can_give clock.now) (L.given link.old) (L.given link.new) igp.old igp.new result.1.installed result.1.left_out result.1.lost }
    ensures shown { HasShown (ran_out result.0) igp.old igp.new shards.old shards.new }
    ensures roster { IsOfSameRoster igp.old igp.new }
    ensures end { result.0 ≡ end_by.End → Rose (L.ends link.old) (L.ends link.new) }
    ensures fault { result.0 ≡ end_by.LinkFault → Rose (L.faults link.old) (L.faults link.new) }
    ensures stopped { result.0 ≡ end_by.Stopped → IsTrue stop.now }
{
    let mut counts = Counts::begin(igp);
    let mut buf = [0; PIECE];
    for _ in rt.forever() {
        if stop.is_set() {
            return (StreamWhy::Stopped, counts);
        }
        let count = match read_some(link, &mut buf) {
            Ok(count) => count,
            Err(why) => return (why, counts),
        };
        match take_piece(rt, alloc, &buf[..count], clock, igp, shards) {
            Ok(got) => counts.add(&got),
            Err(NoMemory) => return (StreamWhy::NoMemory, counts),
        }
        rest_if_idle(link, count);
    }
    unreachable!()
}

/// Reads a stream from its beginning until the link ends or fails, the mark is set, or memory is refused. After each piece, and each time
/// that passed without one, a view is put to every shard where the edges changed.
pub fn serve_stream<R: Wait, L: Link, C: Clock>(
    rt: &R,
    alloc: Global,
    link: &mut L,
    clock: &C,
    igp: &mut IgpView,
    shards: &mut [Sender<ShardMail<View>>],
    stop: &StopMark,
) -> StreamEnd
    ensures served { ran_out result.why ≡ false → HasServed (C.can_give clock.now) (L.given link.old) (L.given link.new) igp.old igp.new result.installed result.left_out result.lost }
    ensures shown { HasShown (ran_out result.why) igp.old igp.new shards.old shards.new }
    ensures roster { IsOfSameRoster igp.old igp.new }
    ensures end { result.why ≡ end_by.End → Rose (L.ends link.old) (L.ends link.new) }
    ensures fault { result.why ≡ end_by.LinkFault → Rose (L.faults link.old) (L.faults link.new) }
    ensures stopped { result.why ≡ end_by.Stopped → IsTrue stop.now }
{
    let (why, counts) = read_pieces(rt, alloc, link, clock, igp, shards, stop);
    StreamEnd {
        why,
        installed: counts.installed,
        left_out: counts.left_out,
        lost: counts.lost,
    }
}
