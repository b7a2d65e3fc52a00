// A link in memory that gates hold, for tests in which threads wait for one another.
ghost use Rattle.std.specs.Prelude.{◌≡◌, ◌<◌, ◌≤◌, ◌-◌, ◌+◌, length};

use crate::{Failed, HeldGate, Link, LinkRead, MemLink};
use std::sync::Arc;

/// The octets of a BGP message's header: 16 of marker, 2 of length, 1 of type (RFC 4271 section 4.1).
const HEADER: usize = 19;

/// A link in memory that waits for gates, and opens others.
///
/// It answers `NotReady` until the gate `before` is open or has starved. After its octets it answers `NotReady` until
/// `after` is open or has starved, and then the end. Each such `NotReady` is a poll of that gate. Once it has taken its
/// k-th whole message header of one type, counted from 1, it opens the k-th gate of a list, where there is one.
#[derive(Drop)]
pub struct HeldLink {
    link: MemLink,
    before: Arc<HeldGate>,
    after: Arc<HeldGate>,
    at: u8,
    opens: Vec<Arc<HeldGate>>,
    opened: usize,
    scanned: usize,
}

impl HeldLink {
    /// The link `link`, held before its first octet by `before` and before its end by `after`. `at` is the type of the
    /// message headers that open the gates of `opens`, one after another.
    pub fn new(
        link: MemLink,
        before: Arc<HeldGate>,
        after: Arc<HeldGate>,
        at: u8,
        opens: Vec<Arc<HeldGate>>,
    ) -> HeldLink
        ensures { result.link ≡ link }
    {
        HeldLink {
            link,
            before,
            after,
            at,
            opens,
            opened: 0,
            scanned: 0,
        }
    }

    /// What the link has taken so far.
    pub fn taken(&self) -> &[u8]
        ensures { result.now ≡ self.now.link.taken }
    {
        self.link.taken()
    }
}

/// Opens a gate for each whole header of this type among the octets taken, from the place `scanned` on, where a header
/// begins. Answers where the next one begins, and how many gates were opened by then.
fn open_at_headers(
    taken: &[u8],
    at: u8,
    opens: &Vec<Arc<HeldGate>>,
    mut opened: usize,
    mut scanned: usize,
) -> (usize, usize) {
    while scanned <= taken.len() && taken.len() - scanned >= HEADER {
        let (_, header) = taken.split_at(scanned);
        if header[18] == at {
            if let Some(gate) = opens.get(opened) {
                gate.open();
            }
            opened = opened.saturating_add(1);
        }
        let length = usize::from(u16::from_be_bytes([header[16], header[17]]));
        scanned = scanned.saturating_add(length.max(HEADER));
    }
    (scanned, opened)
}

impl Link for HeldLink {
    ghost use Rattle.std.specs.Prelude.{Some};

    ghost faults = { λ l. l.link.faults };

    ghost ends = { λ l. l.link.ends };

    ghost empties = { λ l. l.link.empties };

    ghost given = { λ l. Some l.link.given };

    ghost left = { λ l. Some l.link.left };

    ghost taken = { λ l. Some l.link.taken };

    ghost closed = { λ l. Some l.link.closed };

    fn read(&mut self, buf: &mut [u8]) -> Result<LinkRead, Failed> {
        let spent = self.link.is_spent();
        if !self.before.lets_through() || (spent && !self.after.lets_through()) {
            return Ok(LinkRead::NotReady);
        }
        self.link.read(buf)
    }

    fn write(&mut self, piece: &[u8]) -> Result<usize, Failed> {
        let answer = self.link.write(piece);
        let (scanned, opened) = open_at_headers(
            self.link.taken(),
            self.at,
            &self.opens,
            self.opened,
            self.scanned,
        );
        self.scanned = scanned;
        self.opened = opened;
        answer
    }

    fn wait(&mut self, milliseconds: u32) {
        self.link.wait(milliseconds);
    }

    fn close(&mut self) {
        self.link.close();
    }
}
