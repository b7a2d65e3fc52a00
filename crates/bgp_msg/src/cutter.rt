//! Messages out of a stream of octets that comes in any pieces.

ghost use Rattle.std.specs.Prelude.{◌≡◌, ◌+◌, ◌-◌, ◌≤◌, ◌++◌, [], Some, false, length, take, min, IfOk, IfSome, MatchOption, MatchResult};
ghost use Rattle.std.specs.Borrow.{sem};
ghost use Rattle.rcp_model.specs.Messages.{fault, message_size, message_octets};
ghost use Rattle.bgp_fault.specs.Faults.{data_octets, IsWithin};
ghost use Rattle.rcp_model.specs.Sessions.{fault_in_front};
ghost use Rattle.bgp_msg.specs.Cutting.{is_waiting};
ghost use Rattle.bgp_msg.specs.HeaderFields.{IsLengthOf};

use crate::framing::{Message, first_message};
use crate::header::{HEADER_LEN, MOST_OCTETS, read_header};
use bgp_fault::Fault;
use octet_room::Room;
use std::marker::Model;

/// Cuts a stream of octets into messages. It holds the octets that came and weren't handed out: at most one message.
#[derive(Drop)]
pub struct Cutter {
    buffer: [u8; 4096],
    len: usize,
}

impl Model for Cutter {
    ghost use Rattle.std.specs.Prelude.{◌≤◌, List, ℕ, take};
    ghost use Rattle.bgp_msg.specs.Cutting.{HoldsOne};

    ghost Value = { List ℕ };

    ghost view = { λ c. take c.len c.buffer };

    ghost invariant = { λ c. (c.len ≤ 4096) × HoldsOne (take c.len c.buffer) };
}

impl Cutter {
    ghost use Rattle.bgp_msg.specs.Cutting.{Feeds, after_next};
    ghost use Rattle.bgp_msg.specs.Ends.{EndsAs};

    /// A cutter at the start of a stream, which holds nothing.
    pub fn new() -> Cutter
        ensures { result ≡ [] }
    {
        Cutter {
            buffer: [0; MOST_OCTETS],
            len: 0,
        }
    }

    /// Takes a front of the piece, and answers how many octets it took: all of them, unless a message is whole or a
    /// header is faulty. Where one of these was so before, it takes none.
    pub fn feed(&mut self, piece: &[u8]) -> usize
        ensures { Feeds self.old piece.now result self.new }
    {
        let count = fill(&mut self.buffer, self.len, HEADER_LEN, piece);
        self.len += count;
        let (held, _) = self.buffer.split_at(self.len);
        if held.len() < HEADER_LEN {
            return count;
        }
        let Ok(header) = read_header(held) else {
            return count;
        };
        let (_, rest) = piece.split_at(count);
        let more = fill(&mut self.buffer, self.len, usize::from(header.len), rest);
        self.len += more;
        count + more
    }

    /// The message that is whole, which is handed out by this; None where there is none yet. The fault of a header
    /// comes as soon as its 19 octets are there (RFC 4271 section 6.1), and at each call after that.
    pub fn next(&mut self) -> Result<Option<Message<'_>>, Fault>
        ensures given { MatchResult result
            (λ found. MatchOption found
            (is_waiting self.old ≡ false)
            (λ m. (message_size self.old ≡ Some (length self.old)) × (self.old ≡ message_octets m.kind m.body.now)))
            (λ why. (fault_in_front self.old ≡ Some (fault why.code why.sub (data_octets [] why.extra))) × IsWithin [] why.extra) }
        ensures lengths { IfOk result (λ found. IfSome found (λ m. IsLengthOf m.kind (19 + length m.body.now))) }
        ensures* after { sem 𝓛 (EndsAs self.entry) }
    {
        let len = self.len;
        let (held, _) = self.buffer.split_at(len);
        let kind = match first_message(held) {
            Ok(Some(message)) => message.kind,
            Ok(None) => return Ok(None),
            Err(fault) => return Err(fault),
        };
        self.len = 0;
        let (octets, _) = self.buffer.split_at(len);
        let (_, body) = octets.split_at(HEADER_LEN);
        Ok(Some(Message { kind, body }))
    }
}

/// Copies the front of `piece` after the first `len` octets of the buffer, until there are `goal` or the piece
/// ends, and answers how many octets it copied.
fn fill(buffer: &mut [u8; 4096], len: usize, goal: usize, piece: &[u8]) -> usize
    requires goal_fits { goal ≤ 4096 }
    requires len_fits { len ≤ 4096 }
    ensures count { result ≡ min (goal - len) (length piece.now) }
    ensures filled { take (len + result) buffer.new ≡ take len buffer.old ++ take result piece.now }
{
    let count = goal.saturating_sub(len).min(piece.len());
    let (front, _) = piece.split_at(count);
    buffer.put(len, front);
    count
}
