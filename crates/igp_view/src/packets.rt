//! The router LSAs of a packet, installed one after another.

ghost use Rattle.std.specs.Prelude.{◌≡◌, ◌≤◌, ◌<◌, ◌+◌, ◌^◌, [], ◌∷◌, length, true, OnOk};
ghost use Rattle.rcp_base.specs.OspfPackets.{IsPacket, area_id};
ghost use Rattle.rcp_model.specs.LinkStateUpdates.{is_update_of, lsas_of_packet};
ghost use Rattle.rcp_model.specs.LsaWalk.{first_place};
ghost use Rattle.rcp_model.specs.RouterLsas.{lsa_type, lsa_at};
ghost use Rattle.igp_view.specs.Reading.{Installs, Counts, lsas_of_update, read_one};

use crate::igp::IgpGot;
use lsa_reader::{LsaRefusal, ROUTER_LSA, next_lsa, read};
use lsdb::Lsdb;
use rcp_base::NoMemory;
use std::alloc::Global;

/// The type of a Link State Update (RFC 2328 section A.3.5).
const LINK_STATE_UPDATE: u8 = 4;

/// Where the first LSA of an update stands.
const FIRST_LSA: usize = 28;

/// Installs the router LSAs of a packet, if it is an update of the area, and counts them. No more LSAs are counted than the packet has
/// octets.
pub fn take_packet(
    alloc: Global,
    lsdb: &mut Lsdb,
    area: u32,
    packet: &[u8],
    got: &mut IgpGot,
) -> Result<(), NoMemory>
    requires packet { IsPacket packet.now }
    requires room { got.old.installed + got.old.left_out + length packet.now < 2 ^ 64 }
    ensures state { OnOk result (Installs (lsas_of_packet area packet.now) lsdb.old lsdb.new) }
    ensures counts { OnOk result (Counts (lsas_of_packet area packet.now) got.old got.new) }
    ensures few { OnOk result (got.new.installed + got.new.left_out ≤ got.old.installed + got.old.left_out + length packet.now) }
{
    if is_update_of(packet, area) {
        take_lsas(alloc, lsdb, packet, got)?;
    }
    Ok(())
}

/// Whether a packet is a Link State Update of an area.
fn is_update_of(packet: &[u8], area: u32) -> bool
    requires { 24 ≤ length packet.now }
    ensures { result ≡ is_update_of area packet.now }
{
    packet[1] == LINK_STATE_UPDATE && area_of(packet) == area
}

/// The area of a packet.
fn area_of(packet: &[u8]) -> u32
    requires { 24 ≤ length packet.now }
    ensures { result ≡ area_id packet.now }
{
    u32::from_be_bytes([packet[8], packet[9], packet[10], packet[11]])
}

/// Installs the router LSAs of an update, and counts them.
fn take_lsas(
    alloc: Global,
    lsdb: &mut Lsdb,
    packet: &[u8],
    got: &mut IgpGot,
) -> Result<(), NoMemory>
    requires whole { first_place ≤ length packet.now }
    requires room { got.old.installed + got.old.left_out + length packet.now < 2 ^ 64 }
    ensures state { OnOk result (Installs (lsas_of_update packet.now) lsdb.old lsdb.new) }
    ensures counts { OnOk result (Counts (lsas_of_update packet.now) got.old got.new) }
    ensures few { OnOk result (got.new.installed + got.new.left_out ≤ got.old.installed + got.old.left_out + length packet.now) }
{
    let mut place = FIRST_LSA;
    while let Some(found) = next_lsa(packet, place) {
        let Ok((len, kind)) = found else {
            got.left_out += 1;
            return Ok(());
        };
        take_one(alloc, lsdb, kind, &packet[place..place + len], got)?;
        place += len;
    }
    Ok(())
}

/// Installs an LSA of this type, if it is a faultless router LSA, and counts it if it is a router LSA.
fn take_one(
    alloc: Global,
    lsdb: &mut Lsdb,
    kind: u8,
    octets: &[u8],
    got: &mut IgpGot,
) -> Result<(), NoMemory>
    requires kind { kind ≡ lsa_type octets.now }
    requires room { got.old.installed + got.old.left_out + 1 < 2 ^ 64 }
    ensures state { OnOk result (Installs (read_one octets.now) lsdb.old lsdb.new) }
    ensures counts { OnOk result (Counts (read_one octets.now) got.old got.new) }
{
    if kind == ROUTER_LSA {
        take_lsa(alloc, lsdb, octets, got)?;
    }
    Ok(())
}

/// Installs a router LSA, unless it is faulty, and counts it.
fn take_lsa(alloc: Global, lsdb: &mut Lsdb, octets: &[u8], got: &mut IgpGot) -> Result<(), NoMemory>
    requires { got.old.installed + got.old.left_out + 1 < 2 ^ 64 }
    ensures state { OnOk result (Installs (lsa_at octets.now ∷ []) lsdb.old lsdb.new) }
    ensures counts { OnOk result (Counts (lsa_at octets.now ∷ []) got.old got.new) }
{
    match read(alloc, octets) {
        Ok(lsa) => {
            let now = lsdb.time();
            let _answer = lsdb.install(lsa, now)?;
            got.installed += 1;
            Ok(())
        }
        Err(LsaRefusal::Fault(_fault)) => {
            got.left_out += 1;
            Ok(())
        }
        Err(LsaRefusal::NoMemory) => Err(NoMemory),
    }
}
