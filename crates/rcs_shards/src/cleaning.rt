//! Cells that are left clean.

ghost use Rattle.std.specs.Prelude.{◌≡◌, ℕ, ◌<◌, true, length, map};
ghost use Rattle.rcp_base.specs.IpPrefix.{IpPrefix};
ghost use Rattle.rcs_shard.specs.Shards.{is_dirty};
ghost use Rattle.rcs_shards.specs.Dirty.{cleaned, AreReady};

use rcp_base::Slot;
use rcs_shard::Shard;
use roster::Roster;

/// Leaves all cells of the shards of a roster clean. It takes a constant time for each slot of each shard.
pub(crate) fn clean(roster: &Roster, shards: &mut Vec<Shard>)
    requires { AreReady roster.now shards.old.items }
    ensures { shards.new.items ≡ map cleaned shards.old.items }
{
    for shard in shards.iter_mut() {
        clean_shard(roster, shard);
    }
}

/// Leaves all cells of a shard clean.
fn clean_shard(roster: &Roster, shard: &mut Shard)
    requires members { shard.old.members ≡ roster.now.members }
    requires seated { (slot : ℕ) (p : IpPrefix) → is_dirty shard.old slot p ≡ true → slot < length roster.now.members }
    ensures { shard.new ≡ cleaned shard.old }
{
    for slot in 0..roster.len() {
        shard.clean(Slot(slot));
    }
}
