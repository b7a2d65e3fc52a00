//! The kinds of records of a feed, and why a feed or a roster is refused.

use std::fmt;

/// The kind of a record of a feed, by its letter.
#[derive(Clone, Copy, Debug, PartialEq, Eq)]
pub enum Kind {
    /// `C`: the roster.
    Roster,
    /// `E`: a connection begins, established.
    Ready,
    /// `U`: a connection begins.
    Raw,
    /// `B`: octets that came on a connection.
    Octets,
    /// `X`: a connection ends.
    Closed,
    /// `L`: octets of the link-state stream.
    Links,
    /// `T`: the time in seconds.
    Time,
    /// `W`: some pending prefixes of a shard.
    Slice,
    /// `D`: all pending prefixes.
    Drain,
    /// `Z`: the feed's end.
    Finish,
}

/// Why a record isn't one of a feed.
#[derive(Clone, Copy, Debug, PartialEq, Eq)]
pub enum FeedWhy {
    /// The kind is none of the table's.
    Kind = 1,
    /// The body is longer than 65,536 octets, or has another length than its kind.
    Length = 2,
    /// The input ends within the record.
    Truncated = 3,
    /// The first record isn't a roster.
    NoRoster = 4,
    /// A later roster, or a connection whose number isn't greater than those before.
    Twice = 5,
    /// The router isn't in the roster.
    UnknownRouter = 6,
    /// The time is below an earlier one.
    ClockBack = 7,
    /// There is no such shard.
    BadShard = 8,
    /// The records before have 2^40 octets or more.
    TooLong = 9,
    /// The source must be 0 and isn't, or is 0 and must not be.
    BadBody = 10,
    /// 4,096 connections were open.
    TooMany = 11,
}

impl fmt::Display for FeedWhy {
    fn fmt<W: fmt::Write>(&self, f: &mut fmt::Formatter<W>) -> fmt::Result {
        match self {
            FeedWhy::Kind => write!(f, "kind"),
            FeedWhy::Length => write!(f, "length"),
            FeedWhy::Truncated => write!(f, "truncated"),
            FeedWhy::NoRoster => write!(f, "no roster"),
            FeedWhy::Twice => write!(f, "twice"),
            FeedWhy::UnknownRouter => write!(f, "unknown router"),
            FeedWhy::ClockBack => write!(f, "clock back"),
            FeedWhy::BadShard => write!(f, "bad shard"),
            FeedWhy::TooLong => write!(f, "too long"),
            FeedWhy::BadBody => write!(f, "bad body"),
            FeedWhy::TooMany => write!(f, "too many"),
        }
    }
}

/// Why a line isn't one of a roster.
#[derive(Clone, Copy, Debug, PartialEq, Eq)]
pub enum RosterWhy {
    /// An unknown first word, or another count of words.
    Word = 1,
    /// A value is unreadable or out of its range.
    Number = 2,
    /// A setting, a router ID or a BGP Identifier is named twice, or a link's ends are equal.
    Repeated = 3,
    /// A link's router isn't named yet.
    Unknown = 4,
    /// A setting is absent.
    Missing = 5,
    /// A 513th router.
    TooMany = 6,
}

impl fmt::Display for RosterWhy {
    fn fmt<W: fmt::Write>(&self, f: &mut fmt::Formatter<W>) -> fmt::Result {
        match self {
            RosterWhy::Word => write!(f, "word"),
            RosterWhy::Number => write!(f, "number"),
            RosterWhy::Repeated => write!(f, "repeated"),
            RosterWhy::Unknown => write!(f, "unknown"),
            RosterWhy::Missing => write!(f, "missing"),
            RosterWhy::TooMany => write!(f, "too many"),
        }
    }
}
