//! The records of a feed, in their order.

ghost use Rattle.std.specs.Prelude.{◌≡◌, ◌+◌, ◌<◌, Err, IfOk, OnOk};
ghost use Rattle.outside.specs.Told.{Rose, NeverFalls};
ghost use Rattle.rcp_base.specs.Feed.{record_octets};
ghost use Rattle.feed_make.specs.Numbers.{numbers_from};
ghost use Rattle.feed_make.specs.Networks.{change_place};
ghost use Rattle.feed_make.specs.Feeds.{connection, octets_of, sessions, session_of, packets, groups, group_of, announced_by, slice_body, slices_of, slices, changes, ends, feed_octets};
ghost use Rattle.feed_make.specs.Routes.{group_place};
ghost use Rattle.feed_make.specs.Writes.{Writes};
ghost use Rattle.feed_make.specs.declared.refusal.MakeRefusal.TheVariants as refusals;

use crate::draws::Draws;
use crate::links::ROUTERS;
use crate::lsas::packet_of;
use crate::network::Network;
use crate::records::write_record;
use crate::refusal::MakeRefusal;
use crate::roster::roster_text;
use crate::routes::{announcement, announcers};
use crate::sessions::open_message;
use bgp_msg::keepalive_message;
use feed_format::Kind;
use outside::Sink;
use rcp_base::NoMemory;
use std::alloc::Global;

/// How many groups of prefixes there are.
const GROUPS: u16 = 400;

/// How many shards the roster has, and how many slices of work each gets.
const SHARDS: u8 = 8;

const SLICES: u8 = 4;

/// How many links change.
const CHANGES: u16 = 10;

/// Writes the generated feed of this number: any number has one, of 2,460 records.
///
/// `Write` comes only where the sink failed, and then not all of the feed was taken. `NoMemory` comes where there was no room for
/// the links or for a record; then what was taken is a front of the feed. It takes no more memory for a later record.
pub fn make<K: Sink>(alloc: Global, number: u32, sink: &mut K) -> Result<(), MakeRefusal>
    ensures octets { Writes (feed_octets number) (K.taken sink.old) (K.taken sink.new) result }
    ensures cause { result ≡ Err refusals.Write → Rose (K.faults sink.old) (K.faults sink.new) }
    ensures never_falls { NeverFalls (K.faults sink.old) (K.faults sink.new) }
{
    let mut draws = Draws::new(number);
    let mut network = Network::new(alloc, &mut draws)?;
    write_record(sink, Kind::Roster, 0, roster_text(alloc)?)?;
    write_sessions(alloc, sink)?;
    write_network(alloc, &network, sink)?;
    write_groups(alloc, &mut draws, sink)?;
    write_slices(alloc, sink)?;
    write_changes(alloc, &mut draws, &mut network, sink)?;
    write_ends(alloc, sink)
}

/// A session of each router.
fn write_sessions<K: Sink>(alloc: Global, sink: &mut K) -> Result<(), MakeRefusal>
    ensures octets { Writes (octets_of sessions) (K.taken sink.old) (K.taken sink.new) result }
    ensures cause { result ≡ Err refusals.Write → Rose (K.faults sink.old) (K.faults sink.new) }
    ensures never_falls { NeverFalls (K.faults sink.old) (K.faults sink.new) }
{
    for router in 0..ROUTERS {
        write_session(alloc, router, sink)?;
    }
    Ok(())
}

fn write_session<K: Sink>(alloc: Global, router: u16, sink: &mut K) -> Result<(), MakeRefusal>
    requires { router < 400 }
    ensures octets { Writes (octets_of (session_of router)) (K.taken sink.old) (K.taken sink.new) result }
    ensures cause { result ≡ Err refusals.Write → Rose (K.faults sink.old) (K.faults sink.new) }
    ensures never_falls { NeverFalls (K.faults sink.old) (K.faults sink.new) }
{
    let connection = connection_of(router);
    write_record(sink, Kind::Raw, connection, Vec::new(alloc))?;
    let open = open_message(alloc, router)?;
    write_record(sink, Kind::Octets, connection, open)?;
    let keepalive = keepalive_message(alloc)?;
    write_record(sink, Kind::Octets, connection, keepalive)
}

/// The connection of a router, numbered from 1.
fn connection_of(router: u16) -> u32
    ensures { result ≡ connection router }
{
    u32::from(router) + 1
}

/// The LSAs of all routers, 40 in a packet.
fn write_network<K: Sink>(alloc: Global, network: &Network, sink: &mut K) -> Result<(), MakeRefusal>
    requires { network.now.changes ≡ 0 }
    ensures octets { Writes (octets_of (packets network.now.number)) (K.taken sink.old) (K.taken sink.new) result }
    ensures cause { result ≡ Err refusals.Write → Rose (K.faults sink.old) (K.faults sink.new) }
    ensures never_falls { NeverFalls (K.faults sink.old) (K.faults sink.new) }
{
    for i in 0..10 {
        let packet = packet_of(alloc, network, &forty_from(40 * i))?;
        write_record(sink, Kind::Links, 0, packet)?;
    }
    Ok(())
}

/// Forty routers one after another.
fn forty_from(first: u16) -> [u16; 40]
    requires { first < 1000 }
    ensures { result ≡ numbers_from first 40 }
{
    let mut routers = [0; 40];
    for i in 0..40 {
        routers[i] = first + i as u16;
    }
    routers
}

/// The announcements of all groups.
fn write_groups<K: Sink>(alloc: Global, draws: &mut Draws, sink: &mut K) -> Result<(), MakeRefusal>
    requires { draws.old.drawn ≡ 1900 }
    ensures octets { Writes (octets_of (groups draws.old.number)) (K.taken sink.old) (K.taken sink.new) result }
    ensures after { OnOk result (draws.new ≡ record draws.old { drawn = 9100 }) }
    ensures cause { result ≡ Err refusals.Write → Rose (K.faults sink.old) (K.faults sink.new) }
    ensures never_falls { NeverFalls (K.faults sink.old) (K.faults sink.new) }
{
    for group in 0..GROUPS {
        write_group(alloc, draws, group, sink)?;
    }
    Ok(())
}

/// The announcements of a group, by its three routers.
fn write_group<K: Sink>(
    alloc: Global,
    draws: &mut Draws,
    group: u16,
    sink: &mut K,
) -> Result<(), MakeRefusal>
    requires group { group < 400 }
    requires drawn { draws.old.drawn ≡ group_place group }
    ensures octets { Writes (octets_of (group_of draws.old.number group)) (K.taken sink.old) (K.taken sink.new) result }
    ensures after { OnOk result (draws.new ≡ record draws.old { drawn = group_place (group + 1) }) }
    ensures cause { result ≡ Err refusals.Write → Rose (K.faults sink.old) (K.faults sink.new) }
    ensures never_falls { NeverFalls (K.faults sink.old) (K.faults sink.new) }
{
    let [first, second, third] = announcers(draws, group);
    write_announcement(alloc, draws, group, first, sink)?;
    write_announcement(alloc, draws, group, second, sink)?;
    write_announcement(alloc, draws, group, third, sink)
}

fn write_announcement<K: Sink>(
    alloc: Global,
    draws: &mut Draws,
    group: u16,
    router: u16,
    sink: &mut K,
) -> Result<(), MakeRefusal>
    requires group { group < 400 }
    requires router { router < 400 }
    requires drawn { draws.old.drawn < 10000 }
    ensures octets { Writes (record_octets (announced_by draws.old.number group draws.old.drawn router)) (K.taken sink.old) (K.taken sink.new) result }
    ensures after { OnOk result (draws.new ≡ record draws.old { drawn = draws.old.drawn + 5 }) }
    ensures cause { result ≡ Err refusals.Write → Rose (K.faults sink.old) (K.faults sink.new) }
    ensures never_falls { NeverFalls (K.faults sink.old) (K.faults sink.new) }
{
    let message = announcement(alloc, draws, group, router)?;
    write_record(sink, Kind::Octets, connection_of(router), message)
}

/// Slices of each shard's work, and then what is left of it.
fn write_slices<K: Sink>(alloc: Global, sink: &mut K) -> Result<(), MakeRefusal>
    ensures octets { Writes (octets_of slices) (K.taken sink.old) (K.taken sink.new) result }
    ensures cause { result ≡ Err refusals.Write → Rose (K.faults sink.old) (K.faults sink.new) }
    ensures never_falls { NeverFalls (K.faults sink.old) (K.faults sink.new) }
{
    for shard in 0..SHARDS {
        write_slices_of(alloc, shard, sink)?;
    }
    write_record(sink, Kind::Drain, 0, Vec::new(alloc))
}

/// Four slices of a shard's work.
fn write_slices_of<K: Sink>(alloc: Global, shard: u8, sink: &mut K) -> Result<(), MakeRefusal>
    ensures octets { Writes (octets_of (slices_of shard)) (K.taken sink.old) (K.taken sink.new) result }
    ensures cause { result ≡ Err refusals.Write → Rose (K.faults sink.old) (K.faults sink.new) }
    ensures never_falls { NeverFalls (K.faults sink.old) (K.faults sink.new) }
{
    for _ in 0..SLICES {
        write_record(sink, Kind::Slice, 0, slice_body(alloc, shard)?)?;
    }
    Ok(())
}

/// The body of a slice: the shard, and at most 500 prefixes.
fn slice_body(alloc: Global, shard: u8) -> Result<Vec<u8>, NoMemory>
    ensures { IfOk result (λ body. body.items ≡ slice_body shard) }
{
    Ok(Vec::from_slice(alloc, &[0, shard, 0, 0, 1, 244])?)
}

/// Ten links that change, and then the work.
fn write_changes<K: Sink>(
    alloc: Global,
    draws: &mut Draws,
    network: &mut Network,
    sink: &mut K,
) -> Result<(), MakeRefusal>
    requires unchanged { network.old.changes ≡ 0 }
    requires feed { draws.old.number ≡ network.old.number }
    requires drawn { draws.old.drawn ≡ change_place 0 }
    ensures octets { Writes (octets_of (changes network.old.number)) (K.taken sink.old) (K.taken sink.new) result }
    ensures cause { result ≡ Err refusals.Write → Rose (K.faults sink.old) (K.faults sink.new) }
    ensures never_falls { NeverFalls (K.faults sink.old) (K.faults sink.new) }
{
    for _ in 0..CHANGES {
        let routers = network.change(draws);
        let packet = packet_of(alloc, network, &routers)?;
        write_record(sink, Kind::Links, 0, packet)?;
    }
    write_record(sink, Kind::Drain, 0, Vec::new(alloc))
}

/// Three connections that end, what work that leaves, and the end.
fn write_ends<K: Sink>(alloc: Global, sink: &mut K) -> Result<(), MakeRefusal>
    ensures octets { Writes (octets_of ends) (K.taken sink.old) (K.taken sink.new) result }
    ensures cause { result ≡ Err refusals.Write → Rose (K.faults sink.old) (K.faults sink.new) }
    ensures never_falls { NeverFalls (K.faults sink.old) (K.faults sink.new) }
{
    for router in 0..3 {
        write_record(sink, Kind::Closed, connection_of(router), Vec::new(alloc))?;
    }
    write_record(sink, Kind::Drain, 0, Vec::new(alloc))?;
    write_record(sink, Kind::Finish, 0, Vec::new(alloc))
}
