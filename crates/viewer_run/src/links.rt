// The streams of link state, one after another.
ghost use Rattle.std.specs.Prelude.{◌≡◌, false, IsTrue};
ghost use Rattle.igp_view.specs.Igp.{IsOfSameRoster};
ghost use Rattle.viewer_run.specs.Viewing.{HasShown};

use crate::stream::{serve_stream, take_piece};
use cost_rows::View;
use igp_view::IgpView;
use link_acceptor::LinkQueue;
use mailbox::Sender;
use outside::{Clock, Link, StopMark};
use rcp_model::rcs_mail::ShardMail;
use std::alloc::Global;
use std::sync::Wait;

/// How the viewer ended.
#[derive(Clone, Copy, Debug, PartialEq, Eq)]
pub struct ViewerEnd {
    /// Whether memory was refused; else the mark was read set.
    pub memory: bool,
}

/// The longest rest without a stream, in milliseconds: how late the end of an LSA's age is seen then.
const REST: u32 = 1_000;

/// Serves the streams that stand in the queue one after another, until the mark is set or memory is refused. Between them time passes: a view
/// is put to every shard where edges changed by it.
pub fn serve_links<R: Wait, L: Link, C: Clock>(
    rt: &R,
    alloc: Global,
    links: &LinkQueue<L>,
    clock: &C,
    igp: &mut IgpView,
    shards: &mut [Sender<ShardMail<View>>],
    stop: &StopMark,
) -> ViewerEnd
    ensures shown { HasShown result.memory igp.old igp.new shards.old shards.new }
    ensures roster { IsOfSameRoster igp.old igp.new }
    ensures cause { result.memory ≡ false → IsTrue stop.now }
{
    for _ in rt.forever() {
        if stop.is_set() {
            return ViewerEnd { memory: false };
        }
        if let Some(mut link) = links.pop(rt) {
            let end = serve_stream(rt, alloc, &mut link, clock, igp, shards, stop);
            link.close();
            if end.why.ran_out() {
                return ViewerEnd { memory: true };
            }
        } else {
            if take_piece(rt, alloc, &[], clock, igp, shards).is_err() {
                return ViewerEnd { memory: true };
            }
            links.rest(rt, REST);
        }
    }
    unreachable!()
}
