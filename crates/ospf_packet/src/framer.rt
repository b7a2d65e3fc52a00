// The framer itself.
ghost use Rattle.std.specs.Prelude.{◌≡◌, ◌≢◌, ◌<◌, ◌≤◌, ◌+◌, ◌-◌, ◌^◌, ◌↔◌, ◌⊎◌, ◌++◌, [], Ok, Some, None, take, vec_len, min, length, IfOk, IfErr, IfSome, OnOk, OnErr, IsErr};
ghost use Rattle.std.specs.Borrow.{sem};
ghost use Rattle.rcp_base.specs.OspfPackets.{Front, whole, part, lost, front_of, IsPacket};

use crate::header::{HEADER_LEN, PACKET_MAX, is_faultless, packet_len};
use rcp_base::NoMemory;
use std::alloc::Global;
use std::marker::Model;
use thiserror::Error;

/// The framing of a stream is lost: no packet has the header that stands at this place, an offset in octets from
/// the start of the stream. A place that doesn't fit is given as the last value.
#[derive(Clone, Copy, Debug, PartialEq, Eq, Error)]
#[error("no OSPF packet at octet {place}")]
pub struct Unsynchronised {
    pub place: u64,
}

/// Cuts a stream of octets into OSPF packets.
#[derive(Drop)]
pub struct Framer {
    buffer: Vec<u8>,
    len: usize,
    place: u64,
}

impl Model for Framer {
    ghost use Rattle.std.specs.Prelude.{◌≡◌, ◌≤◌, ◌<◌, ◌^◌, take, length};
    ghost use Rattle.ospf_packet.specs.Framing.{Framing, HoldsOne};

    ghost Value = { Framing };

    ghost view = { λ f. record { held = take f.len f.buffer.items; place = f.place } };

    ghost invariant = { λ f. (length f.buffer.items ≡ 65535) × (f.len ≤ 65535) × HoldsOne (take f.len f.buffer.items) };
}

impl Framer {
    ghost use Rattle.ospf_packet.specs.Framing.{at_start, after_next};
    ghost use Rattle.ospf_packet.specs.Ends.{EndsAs};

    /// A framer at the start of a stream. It takes the memory of one packet, and none later.
    pub fn new(alloc: Global) -> Result<Framer, NoMemory>
        ensures { IfOk result (λ framer. framer ≡ at_start) }
    {
        Ok(Framer {
            buffer: vec![in alloc; 0; PACKET_MAX]?,
            len: 0,
            place: 0,
        })
    }

    /// Begins a new stream: what came of the one before is dropped, and so is a loss of framing.
    pub fn restart(&mut self)
        ensures { self.new ≡ at_start }
    {
        self.len = 0;
        self.place = 0;
    }

    /// How many octets are held, of which none was handed out: at most 65,535.
    pub fn held_len(&self) -> usize
        ensures len { result ≡ length self.now.held }
        ensures few { result ≤ 65535 }
    {
        self.len
    }

    /// Where in the stream the first octet stands that wasn't handed out: at most 2^64 - 1.
    pub fn place(&self) -> u64
        ensures { result ≡ self.now.place }
    {
        self.place
    }

    /// Takes a front of the piece, and answers how many octets it took: all of them, unless a packet is whole or
    /// the framing is lost. Where one of these was so before, it takes none.
    pub fn feed(&mut self, piece: &[u8]) -> usize
        ensures within { result ≤ length piece.now }
        ensures taken { self.new ≡ record self.old { held = self.old.held ++ take result piece.now } }
        ensures all { front_of self.new.held ≡ part → result ≡ length piece.now }
        ensures waits { front_of self.old.held ≢ part → result ≡ 0 }
        ensures none { result ≡ 0 → (piece.now ≡ []) ⊎ (front_of self.old.held ≢ part) }
    {
        let count = fill(&mut self.buffer, self.len, HEADER_LEN, piece);
        self.len += count;
        let (held, _) = self.buffer.split_at(self.len);
        if held.len() < HEADER_LEN || !is_faultless(held) {
            return count;
        }
        let goal = packet_len(held);
        let (_, rest) = piece.split_at(count);
        let more = fill(&mut self.buffer, self.len, goal, rest);
        self.len += more;
        count + more
    }

    /// The packet that is whole, which is handed out by this; None where there is none yet. Once the framing is
    /// lost, it is so for ever.
    pub fn next(&mut self) -> Result<Option<&[u8]>, Unsynchronised>
        ensures whole { IfOk result (λ found. IfSome found (λ octets. (octets.now ≡ self.old.held) × IsPacket octets.now)) }
        ensures part { (result ≡ Ok None) ↔ (front_of self.old.held ≡ part) }
        ensures lost { IsErr result ↔ (front_of self.old.held ≡ lost) }
        ensures place { IfErr result (λ e. e.place ≡ self.old.place) }
        ensures* after { sem 𝓛 (EndsAs self.entry) }
    {
        let (held, _) = self.buffer.split_at(self.len);
        if held.len() < HEADER_LEN {
            return Ok(None);
        }
        if !is_faultless(held) {
            return Err(Unsynchronised { place: self.place });
        }
        let len = self.len;
        if len < packet_len(held) {
            return Ok(None);
        }
        self.place = self.place.saturating_add(len as u64);
        self.len = 0;
        let (octets, _) = self.buffer.split_at(len);
        Ok(Some(octets))
    }
}

/// Copies the front of `piece` after the first `len` octets of the buffer, until there are `goal` or the piece
/// ends, and answers how many octets it copied.
fn fill(buffer: &mut Vec<u8>, len: usize, goal: usize, piece: &[u8]) -> usize
    requires goal_fits { goal ≤ vec_len buffer.old }
    requires len_fits { len ≤ vec_len buffer.old }
    ensures count { result ≡ min (goal - len) (length piece.now) }
    ensures room { vec_len buffer.new ≡ vec_len buffer.old }
    ensures filled { take (len + result) buffer.new.items ≡ take len buffer.old.items ++ take result piece.now }
{
    let count = goal.saturating_sub(len).min(piece.len());
    let (front, _) = piece.split_at(count);
    copy_to(buffer, len, front);
    count
}

/// Copies the octets into the buffer, from this place on.
fn copy_to(buffer: &mut [u8], place: usize, octets: &[u8])
    requires { place + length octets.now ≤ length buffer.old }
    ensures { take (place + length octets.now) buffer.new ≡ take place buffer.old ++ octets.now }
{
    let (_, room) = buffer.split_at_mut(place);
    let (slots, _) = room.split_at_mut(octets.len());
    slots.copy_from_slice(octets);
}
