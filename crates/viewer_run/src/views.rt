// Putting views to the shards.
ghost use Rattle.std.specs.Prelude.{◌≡◌, ◌⊎◌, ◌<◌, ◌-◌, ◌^◌, ◌∷◌, [], length, IfOk, OnOk, OnErr};
ghost use Rattle.std.specs.List.{AllByRecursion};
ghost use Rattle.viewer_run.specs.Viewing.{HasPutViews, PutToAll, view_of};

use cost_rows::View;
use igp_view::IgpView;
use mailbox::{Sender, put};
use rcp_base::NoMemory;
use rcp_model::rcs_mail::ShardMail;
use std::alloc::Global;
use std::sync::{Arc, Wait};
use std::thread;

/// Puts a view into a shard's mailbox, as soon as there is room.
fn put_view<R: Wait>(rt: &R, sender: &mut Sender<ShardMail<View>>, view: Arc<View>)
    ensures { HasPutViews (view.value ∷ []) sender.old sender.new }
{
    let mut message = ShardMail::View(view);
    for _ in rt.forever() {
        match put(rt, sender, message) {
            Ok(()) => return,
            Err((back, _)) => message = back,
        }
        thread::yield_now();
    }
    unreachable!()
}

/// A copy of the view for each of so many shards.
fn copies(alloc: Global, igp: &IgpView, count: usize) -> Result<Vec<Arc<View>>, NoMemory>
    ensures count { IfOk result (λ views. length views.items ≡ count) }
    ensures views { IfOk result (λ views. AllByRecursion (λ view. view.value ≡ view_of igp.now) views.items) }
{
    let mut views = Vec::new(alloc);
    for _shard in 0..count {
        views.push(igp.view()?)?;
    }
    Ok(views)
}

/// Puts the view to every shard. The copies for all are taken before the first is put, so that `NoMemory` leaves the mailboxes as they are.
pub(crate) fn put_to_all<R: Wait>(
    rt: &R,
    alloc: Global,
    igp: &IgpView,
    shards: &mut [Sender<ShardMail<View>>],
) -> Result<(), NoMemory>
    ensures put { OnOk result (PutToAll (view_of igp.now ∷ []) shards.old shards.new) }
    ensures none { OnErr result (PutToAll [] shards.old shards.new) }
{
    let mut views = copies(alloc, igp, shards.len())?;
    for sender in shards.iter_mut() {
        match views.pop() {
            Some(view) => put_view(rt, sender, view),
            None => return Ok(()),
        }
    }
    Ok(())
}

/// Puts the view to every shard where the count of changes isn't `before` any more, or has reached its last value.
pub(crate) fn pass_on<R: Wait>(
    rt: &R,
    alloc: Global,
    before: u64,
    igp: &IgpView,
    shards: &mut [Sender<ShardMail<View>>],
) -> Result<(), NoMemory>
    ensures put { OnOk result (PutToAll (view_of igp.now ∷ []) shards.old shards.new ⊎ (PutToAll [] shards.old shards.new × (igp.now.changes ≡ before) × (before < 2 ^ 64 - 1))) }
    ensures none { OnErr result (PutToAll [] shards.old shards.new) }
{
    if igp.changes() != before || before == u64::MAX {
        return put_to_all(rt, alloc, igp, shards);
    }
    Ok(())
}
