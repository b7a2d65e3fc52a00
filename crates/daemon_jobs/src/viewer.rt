//! The job of the viewer.

use crate::shared::Shared;
use igp_view::IgpView;
use mailbox::Sender;
use outside::{Clock, Link};
use seats::{Mail, SeatNames};
use std::sync::Wait;
use viewer_run::serve_links;

/// Reads the streams of link state, and puts views to the shards.
#[derive(Drop)]
pub struct ViewerJob {
    igp: IgpView,
    shards: Vec<Sender<Mail>>,
    pub(crate) ran_out: bool,
}

impl ViewerJob {
    /// The viewer of this link state, with a sender to each shard.
    pub fn new(igp: IgpView, shards: Vec<Sender<Mail>>) -> ViewerJob {
        ViewerJob {
            igp,
            shards,
            ran_out: false,
        }
    }

    /// Serves streams until the mark that stops the sessions is set; without memory it sets the mark.
    pub(crate) fn run<B: SeatNames, L: Link, C: Clock, G, R: Wait>(
        &mut self,
        rt: &R,
        shared: &Shared<'_, B, L, C, G>,
    ) {
        let end = serve_links(
            rt,
            shared.alloc,
            &shared.streams,
            shared.clock,
            &mut self.igp,
            &mut self.shards,
            &shared.stop,
        );
        if end.memory {
            self.ran_out = true;
            shared.stop.set();
        }
        shared.sender_ended();
    }
}
