//! The records that are put out.

ghost use Rattle.std.specs.Prelude.{◌≡◌, ◌≤◌, ◌<◌, ◌^◌, ◌++◌, ◌∷◌, [], length, map, option_map, All, OnOk, IfOk, Some, None};
ghost use Rattle.std.specs.Int.{w64, to_be_bytes};
ghost use Rattle.feed_meaning.specs.OutRecords.{MESSAGE as MESSAGE_KIND, SUMMARY as SUMMARY_KIND, messages_to, end_record, lost_record};
ghost use Rattle.session_core.specs.Shown.{ending_of};

use feed_format::Out;
use rcp_base::NoMemory;
use session_core::Closed;
use std::alloc::Global;
use std::marker::Model;

// The kinds of the records: a message to a router, the end of a connection, lost framing, and a summary.
const MESSAGE: u8 = b'B';

const CLOSED: u8 = b'X';

const LOST_FRAMING: u8 = b'Q';

const SUMMARY: u8 = b'S';

/// What is put out for a record. Contracts see the list of the records. Each has a body that fits its frame.
#[derive(Drop)]
pub struct Outputs {
    alloc: Global,
    records: Vec<Out>,
}

impl Model for Outputs {
    ghost use Rattle.std.specs.Prelude.{List};
    ghost use Rattle.rcp_base.specs.Feed.{OutRecord};
    ghost use Rattle.platform_core.specs.Outputs.{AreFramed};

    ghost Value = { List OutRecord };

    ghost view = { λ o. o.records.items };

    ghost invariant = { λ o. AreFramed o.records.items };
}

impl Outputs {
    ghost use Rattle.platform_core.specs.Outputs.{AreFramed};

    pub fn new(alloc: Global) -> Outputs
        ensures { result ≡ [] }
    {
        Outputs {
            alloc,
            records: Vec::new(alloc),
        }
    }

    /// How many records there are.
    pub fn len(&self) -> usize
        ensures { result ≡ length self.now }
    {
        self.records.len()
    }

    pub fn into_records(self) -> Vec<Out>
        ensures items { result.items ≡ self }
        ensures framed { AreFramed result.items }
    {
        let Outputs { alloc: _, records } = self;
        records
    }

    /// Adds messages to a connection.
    pub fn add_messages(&mut self, connection: u32, messages: Vec<Vec<u8>>) -> Result<(), NoMemory>
        requires { All (λ message. length message.items ≤ 4096) messages.items }
        ensures { OnOk result (self.new ≡ self.old ++ messages_to connection (map (λ message. message.items) messages.items)) }
    {
        for message in messages {
            self.add_message(connection, message)?;
        }
        Ok(())
    }

    /// Adds a message to a connection.
    fn add_message(&mut self, connection: u32, message: Vec<u8>) -> Result<(), NoMemory>
        requires { length message.items ≤ 4096 }
        ensures { OnOk result (self.new ≡ self.old ++ record { kind = MESSAGE_KIND; connection = connection; body = message.items } ∷ []) }
    {
        self.add(Out {
            kind: MESSAGE,
            connection,
            body: message,
        })
    }

    /// Adds the end of a connection where it ended, with its reason and the code and subcode of the NOTIFICATION.
    pub fn add_end(&mut self, connection: u32, closed: Option<Closed>) -> Result<(), NoMemory>
        ensures { OnOk result (self.new ≡ self.old ++ end_record connection (option_map ending_of closed)) }
    {
        let Some(closed) = closed else {
            return Ok(());
        };
        let body = [closed.why.number(), closed.code, closed.sub];
        self.add_octets(CLOSED, connection, &body)
    }

    /// Adds that the framing of the link-state stream was lost at a place, where it was.
    pub fn add_lost(&mut self, place: Option<u64>) -> Result<(), NoMemory>
        ensures { OnOk result (self.new ≡ self.old ++ lost_record place) }
    {
        let Some(place) = place else {
            return Ok(());
        };
        self.add_octets(LOST_FRAMING, 0, &place.to_be_bytes())
    }

    /// Adds a summary: how many routers are connected, how many prefixes some router announces, and how many UPDATEs were put
    /// out so far.
    pub fn add_summary(&mut self, routers: u64, prefixes: u64, updates: u64) -> Result<(), NoMemory>
        ensures { OnOk result (self.new ≡ self.old ++ record {
          kind = SUMMARY_KIND;
          connection = 0;
          body = to_be_bytes w64 routers ++ to_be_bytes w64 prefixes ++ to_be_bytes w64 updates;
        } ∷ []) }
    {
        let mut body = Vec::with_capacity(self.alloc, 24)?;
        body.extend_from_slice(&routers.to_be_bytes())?;
        body.extend_from_slice(&prefixes.to_be_bytes())?;
        body.extend_from_slice(&updates.to_be_bytes())?;
        self.add(Out {
            kind: SUMMARY,
            connection: 0,
            body,
        })
    }

    /// Adds a record with a copy of these octets.
    fn add_octets(&mut self, kind: u8, connection: u32, octets: &[u8]) -> Result<(), NoMemory>
        requires { length octets.now ≤ 4096 }
        ensures { OnOk result (self.new ≡ self.old ++ record { kind = kind; connection = connection; body = octets.now } ∷ []) }
    {
        let body = Vec::from_slice(self.alloc, octets)?;
        self.add(Out {
            kind,
            connection,
            body,
        })
    }

    fn add(&mut self, out: Out) -> Result<(), NoMemory>
        requires { length out.body ≤ 4096 }
        ensures { OnOk result (self.new ≡ self.old ++ out ∷ []) }
    {
        self.records.push(out)?;
        Ok(())
    }
}
