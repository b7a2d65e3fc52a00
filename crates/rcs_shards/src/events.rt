//! Events that concern each shard.

ghost use Rattle.std.specs.Prelude.{◌≡◌, ◌<◌, true, length, map, All, IfOk, OnOk, OnErr};
ghost use Rattle.rcp_model.specs.ServerRibs.{Up, Down, Links};
ghost use Rattle.rcs_shard.specs.Shards.{acted, is_connected};
ghost use Rattle.rcs_shard.specs.Settling.{AreClasses};
ghost use Rattle.rcs_shard.specs.Following.{AreMoved};

use cost_rows::View;
use rcp_base::{NoMemory, Slot};
use rcs_shard::{Shard, find_classes};
use std::alloc::Global;
use std::sync::Arc;

/// A slot is connected in each shard.
pub(crate) fn up_each(shards: &mut Vec<Shard>, slot: Slot)
    requires { All (λ shard. slot < length shard.members) shards.old.items }
    ensures { shards.new.items ≡ map (acted (Up slot)) shards.old.items }
{
    for shard in shards.iter_mut() {
        shard.up(slot);
    }
}

/// A slot isn't connected any more in each shard.
pub(crate) fn down_each(shards: &mut Vec<Shard>, slot: Slot)
    requires member { All (λ shard. slot < length shard.members) shards.old.items }
    requires up { All (λ shard. is_connected shard slot ≡ true) shards.old.items }
    ensures { shards.new.items ≡ map (acted (Down slot)) shards.old.items }
{
    for shard in shards.iter_mut() {
        shard.down(slot);
    }
}

/// Each shard takes a view of the same members, by the flags of the slots to which costs differ and the classes in it. Where a copy of the pointer is
/// refused, none does.
pub(crate) fn view_each(
    alloc: Global,
    shards: &mut Vec<Shard>,
    view: &Arc<View>,
    moved: &[bool],
    classes: &[Slot],
) -> Result<(), NoMemory>
    requires members { All (λ shard. view.now.value.members ≡ shard.members) shards.old.items }
    requires moved { All (λ shard. AreMoved shard.ribs.edges view.now.value.edges shard.members moved.now) shards.old.items }
    requires classes { AreClasses view.now.value classes.now }
    ensures after { OnOk result (shards.new.items ≡ map (acted (Links view.now.value.edges)) shards.old.items) }
    ensures err { OnErr result (shards.new.items ≡ shards.old.items) }
{
    let mut copies = copies_of(alloc, view, shards.len())?;
    for shard in shards.iter_mut() {
        match copies.pop() {
            Some(copy) => shard.follow(copy, moved, classes),
            None => unreachable!(),
        }
    }
    Ok(())
}

/// The class of each member in a view.
pub(crate) fn classes_of(alloc: Global, view: &View) -> Result<Vec<Slot>, NoMemory>
    ensures { IfOk result (λ classes. AreClasses view.now classes.items) }
{
    let mut classes = vec![in alloc; Slot(0); view.members().len()]?;
    find_classes(view, &mut classes);
    Ok(classes)
}

/// So many pointers to a view.
fn copies_of(alloc: Global, view: &Arc<View>, count: usize) -> Result<Vec<Arc<View>>, NoMemory>
    ensures count { IfOk result (λ copies. length copies.items ≡ count) }
    ensures same { IfOk result (λ copies. All (λ copy. copy.value ≡ view.now.value) copies.items) }
{
    let mut copies = Vec::with_capacity(alloc, count)?;
    for _ in 0..count {
        copies.push(view.clone()?)?;
    }
    Ok(copies)
}
