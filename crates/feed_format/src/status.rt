//! How a run of a program ends.

ghost use Rattle.std.specs.Prelude.{◌≡◌};
ghost use Rattle.feed_format.specs.Numbers.{number_of_fault};

use rcp_base::{FeedWhy, Prefix, RosterWhy, RouterId};
use thiserror::Error;

/// Why no walk of routers to the egress is given.
#[derive(Clone, Copy, Debug, PartialEq, Eq, Error)]
pub enum WalkWhy {
    /// The prefix has pending work.
    #[error("pending {prefix}")]
    Pending { prefix: Prefix },
    /// The router chooses no route.
    #[error("no route")]
    NoRoute,
    /// The router isn't in the roster, or isn't connected.
    #[error("not connected {router}")]
    NotConnected { router: RouterId },
    /// An edge of cost 0 begins in the router's partition.
    #[error("zero cost {from} {to}")]
    ZeroCost { from: RouterId, to: RouterId },
}

impl WalkWhy {
    ghost use Rattle.feed_format.specs.Numbers.{number_of_walk};

    /// Its number, from 1.
    pub fn number(&self) -> u8
        ensures { result ≡ number_of_walk self.now }
    {
        match self {
            WalkWhy::Pending { .. } => 1,
            WalkWhy::NoRoute => 2,
            WalkWhy::NotConnected { .. } => 3,
            WalkWhy::ZeroCost { .. } => 4,
        }
    }
}

/// The number of a fault of a feed: 1 to 11, in the order of the variants.
pub fn number_of_fault(why: FeedWhy) -> u8
    ensures { result ≡ number_of_fault why }
{
    why as u8
}

/// No walk is given.
#[derive(Clone, Copy, Debug, PartialEq, Eq, Error)]
#[error("{why}")]
pub struct WalkRefusal {
    pub why: WalkWhy,
}

/// How a run of a program ends.
#[derive(Clone, Copy, Debug, PartialEq, Eq, Error)]
pub enum Status {
    /// All input was read and everything was written.
    #[error("done")]
    Done,
    /// The words are none of the program's.
    #[error("usage")]
    Usage,
    /// The record of this number isn't one of the feed.
    #[error("record {number}: {why}")]
    Feed {
        number: u64,
        why: FeedWhy,
    },
    /// The line is the first faulty one of the roster that the record of this number holds.
    #[error("roster line {line}: {why}")]
    Roster {
        number: u64,
        line: u32,
        why: RosterWhy,
    },
    /// The input failed.
    #[error("read fault")]
    Read,
    /// The output failed.
    #[error("write fault")]
    Write,
    /// No memory was found.
    #[error("no memory")]
    NoMemory,
    /// No walk is given.
    #[error("no path: {0}")]
    NoPath(WalkRefusal),
    /// The net failed.
    #[error("net fault")]
    NetFault,
}

impl Status {
    ghost use Rattle.feed_format.specs.Numbers.{code_of};

    /// The code that the program ends with.
    pub fn code(&self) -> u8
        ensures { result ≡ code_of self.now }
    {
        match self {
            Status::Done => 0,
            Status::Usage => 2,
            Status::Feed { .. } => 3,
            Status::Roster { .. } => 4,
            Status::Read => 5,
            Status::Write => 6,
            Status::NoMemory => 7,
            Status::NoPath(_) => 8,
            Status::NetFault => 9,
        }
    }
}
