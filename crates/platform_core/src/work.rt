//! The work on pending prefixes, and the UPDATEs for the cells that change.

ghost use Rattle.std.specs.Prelude.{◌≡◌, ◌≤◌, ◌++◌, false, length, map, All, OnOk};
ghost use Rattle.feed_meaning.specs.Work.{shard_in, count_in};
ghost use Rattle.platform_laws.specs.Asked.{all_pending};
ghost use Rattle.platform_laws.specs.Work.{updates_to_all};
ghost use Rattle.rcs_shards.specs.Servers.{worked, least_pending};
ghost use Rattle.platform_core.specs.Following.{Keeps};
ghost use Rattle.platform_core.specs.Working.{records_to};

use crate::connections::Connections;
use crate::output::Outputs;
use rcp_base::NoMemory;
use rcs_shards::{Messages, Shards, Workers};

/// The shard that the body of a W names, and how many prefixes.
pub fn read_slice(body: &[u8]) -> (u16, u32)
    requires { length body.now ≡ 6 }
    ensures shard { result.0 ≡ shard_in body.now }
    ensures count { result.1 ≡ count_in body.now }
{
    let Some((number, rest)) = body.split_first_chunk::<2>() else {
        return (0, 0);
    };
    let Some((count, _)) = rest.split_first_chunk::<4>() else {
        return (0, 0);
    };
    (u16::from_be_bytes(*number), u32::from_be_bytes(*count))
}

/// Works the least pending prefixes of a shard, so many at most, and puts out the UPDATEs.
pub fn work_slice(
    connections: &Connections,
    shards: &mut Shards,
    number: u16,
    count: u32,
    out: &mut Outputs,
) -> Result<(), NoMemory>
    requires fresh { connections.now.spent ≡ false }
    requires members { connections.now.members ≡ length shards.old.roster.members }
    ensures after { OnOk result (shards.new ≡ worked (least_pending number count shards.old) shards.old) }
    ensures output { OnOk result (out.new ≡ out.old ++ updates_to_all shards.old.roster (least_pending number count shards.old) shards.old.shards shards.new.shards connections.now.sessions) }
    ensures kept { Keeps shards.old shards.new }
{
    let established = connections.established()?;
    let lists = shards.work_least(number, count, &established.slots)?;
    put_out(&established.numbers, lists, out)
}

/// Works all pending prefixes, and puts out the UPDATEs.
pub fn work_all<W: Workers>(
    workers: &W,
    connections: &Connections,
    shards: &mut Shards,
    out: &mut Outputs,
) -> Result<(), NoMemory>
    requires ready { W.ready workers.now }
    requires fresh { connections.now.spent ≡ false }
    requires members { connections.now.members ≡ length shards.old.roster.members }
    ensures after { OnOk result (shards.new ≡ worked (all_pending shards.old.shards) shards.old) }
    ensures output { OnOk result (out.new ≡ out.old ++ updates_to_all shards.old.roster (all_pending shards.old.shards) shards.old.shards shards.new.shards connections.now.sessions) }
    ensures kept { Keeps shards.old shards.new }
{
    let established = connections.established()?;
    let lists = shards.work_all(workers, &established.slots)?;
    put_out(&established.numbers, lists, out)
}

/// Puts out what each connection is sent, by rising number.
fn put_out(numbers: &[u32], lists: Vec<Messages>, out: &mut Outputs) -> Result<(), NoMemory>
    requires each { length lists.items ≡ length numbers.now }
    requires short { All (λ messages. All (λ m. length m.items ≤ 4096) messages.items) lists.items }
    ensures { OnOk result (out.new ≡ out.old ++ records_to numbers.now (map (λ messages. map (λ m. m.items) messages.items) lists.items)) }
{
    let mut place = 0;
    for messages in lists {
        out.add_messages(numbers[place], messages)?;
        place += 1;
    }
    Ok(())
}
