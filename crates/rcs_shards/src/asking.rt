//! What is asked of each shard.

ghost use Rattle.std.specs.Prelude.{◌≡◌, ℕ, ◌<◌, List, length, min, All, IsSome};
ghost use Rattle.feed_meaning.specs.OutRecords.{MOST};
ghost use Rattle.rcp_base.specs.IpPrefix.{IpPrefix};
ghost use Rattle.rcp_model.specs.Assigned.{IsLeast, IsAfter};
ghost use Rattle.platform_laws.specs.Asked.{announced_count, pending_count};
ghost use Rattle.rcs_shard.specs.Shards.{ShardOf, announced_at, given_at};
ghost use Rattle.rcs_shards.specs.Dirty.{ribs_in};
ghost use Rattle.rcs_shards.specs.Least.{HasSome};

use crate::least::{again, lesser};
use rcp_base::{Prefix, Slot};
use rcs_shard::Shard;

/// The least prefix after the given one that some slot announces in some shard.
pub(crate) fn next_prefix(shards: &[Shard], after: Option<Prefix>) -> Option<Prefix>
    ensures { IsLeast (HasSome (λ (shard : ShardOf) p. IsAfter after p × ((slot : ℕ) × IsSome (announced_at shard slot p))) shards.now) result }
{
    let mut found = None;
    for shard in shards {
        found = lesser(found, shard.next_prefix(again(&after)));
    }
    found
}

/// The least prefix after the given one at which a slot is given a route in some shard.
pub(crate) fn next_entry(shards: &[Shard], slot: Slot, after: Option<Prefix>) -> Option<Prefix>
    requires { All (λ shard. slot < length shard.members) shards.now }
    ensures { IsLeast (HasSome (λ (shard : ShardOf) p. IsAfter after p × IsSome (given_at shard slot p)) shards.now) result }
{
    let mut found = None;
    for shard in shards {
        found = lesser(found, shard.next_entry(slot, again(&after)));
    }
    found
}

/// How many prefixes are pending: 2^64 - 1 where there are more.
pub(crate) fn pending(shards: &[Shard]) -> u64
    ensures { result ≡ min (pending_count (ribs_in shards.now)) MOST }
{
    let mut count: u64 = 0;
    for shard in shards {
        count = count.saturating_add(shard.pending());
    }
    count
}

/// How many prefixes are announced: 2^64 - 1 where there are more.
pub(crate) fn announced(shards: &[Shard]) -> u64
    ensures { result ≡ min (announced_count (ribs_in shards.now)) MOST }
{
    let mut count: u64 = 0;
    for shard in shards {
        count = count.saturating_add(shard.announced());
    }
    count
}
