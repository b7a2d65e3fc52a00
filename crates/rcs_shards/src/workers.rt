//! Who works the shards: one thread, or several.

ghost use Rattle.std.specs.Prelude.{◌≡◌, map};
ghost use Rattle.std.specs.Thread.{IsSync};
ghost use Rattle.rcs_shards.specs.Dirty.{sliced_whole};

use crate::work::work_shard;
use rayon::prelude::*;
use rcs_shard::Shard;
use std::thread::Threads;

/// Who works the shards.
pub trait Workers {
    /// What their work asks of the types that they stand on.
    ghost ready: { Self → Type 0 };

    /// Works all pending prefixes of each shard.
    fn work_each(&self, shards: &mut Vec<Shard>)
        requires { ready self.now }
        ensures { shards.new.items ≡ map sliced_whole shards.old.items };
}

/// One shard after another.
#[derive(Clone, Copy, Debug)]
pub struct InTurn;

impl Workers for InTurn {
    ghost ready = { λ _. Unit {0} };

    fn work_each(&self, shards: &mut Vec<Shard>) {
        work_in_turn(shards);
    }
}

/// The shards side by side, in as many threads as there are processors, 32 at most.
#[derive(Drop)]
pub struct InThreads<'a, R> {
    pub threads: &'a R,
}

impl<R: Threads + Sync> Workers for InThreads<'_, R> {
    // Each thread is lent what it needs to start others.
    ghost ready = { λ _. IsSync R.row };

    fn work_each(&self, shards: &mut Vec<Shard>) {
        work_in_threads(self.threads, shards);
    }
}

/// Works all pending prefixes of one shard after another.
fn work_in_turn(shards: &mut Vec<Shard>)
    ensures { shards.new.items ≡ map sliced_whole shards.old.items }
{
    for shard in shards.iter_mut() {
        work_whole(shard);
    }
}

/// Works all pending prefixes of each shard, the shards side by side.
fn work_in_threads<R: Threads + Sync>(threads: &R, shards: &mut Vec<Shard>)
    ensures { shards.new.items ≡ map sliced_whole shards.old.items }
{
    par_for_each_mut(
        threads,
        shards,
        |_: usize, shard: &mut Shard|
            ensures { shard.new ≡ sliced_whole shard.old }
        { work_whole(shard) },
    );
}

/// Works all pending prefixes of a shard.
fn work_whole(shard: &mut Shard)
    ensures { shard.new ≡ sliced_whole shard.old }
{
    let most = shard.pending();
    work_shard(shard, most);
}
