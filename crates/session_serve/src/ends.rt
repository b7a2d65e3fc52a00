//! How a session ends.

ghost use Rattle.std.specs.Prelude.{[], option_map};
ghost use Rattle.session_core.specs.Shown.{ending_of};
ghost use Rattle.session_serve.specs.Ended.{Closes};

use rcp_base::Slot;
use seats::SeatOut;
use session_core::{Closed, Why};

/// Why a session ended.
#[derive(Debug, Drop)]
pub enum EndWhy {
    /// A fault in what the peer sent, or a timer that ran out (4/0). A NOTIFICATION with this code and subcode was to be written
    /// last (RFC 4271 section 6).
    Fault { code: u8, sub: u8 },
    /// A NOTIFICATION came, with this code and subcode (RFC 4271 section 4.5).
    Received { code: u8, sub: u8 },
    /// The peer ended the link.
    PeerClosed,
    /// Another session holds the seat of the router, or the seat is worn out. A Cease was to be written last.
    SeatOut(SeatOut),
    /// The link failed.
    LinkFault,
    /// The mark was set.
    Stopped,
    /// There was no memory.
    NoMemory,
}

/// The end of a session, and what it did.
#[derive(Debug, Drop)]
pub struct SessionEnd {
    pub why: EndWhy,
    /// The slot that the peer's OPEN claimed.
    pub slot: Option<Slot>,
    /// The generation of the seat that was served, 0 where none was.
    pub generation: u64,
    /// The messages with a faultless header that were read whole and handled, also those with a faulty body. It saturates.
    pub messages: u64,
    /// The UPDATEs that were wholly written. It saturates.
    pub updates: u64,
}

/// Whether a session goes on, or the end that closed it. One whose link stands and whose seat is got isn't closed otherwise than by a fault or a
/// NOTIFICATION.
pub fn ended_by(closed: &Option<Closed>) -> Result<(), EndWhy>
    ensures { Closes (option_map ending_of closed.now) [] result }
{
    let Some(closed) = closed else {
        return Ok(());
    };
    let (code, sub) = (closed.code, closed.sub);
    match closed.why {
        Why::Fault => Err(EndWhy::Fault { code, sub }),
        Why::Received => Err(EndWhy::Received { code, sub }),
        Why::End | Why::SeatOut => Err(EndWhy::NoMemory),
    }
}
