// The texts of refusals and statuses.
use super::*;
use rcp_base::{RouterId, read_prefix};
use std::test::Fail;

#[test]
fn statuses_are_told_in_one_line(rt: HostRuntime) -> Result<(), Fail> {
    let prefix = read_prefix(b"203.0.113.0/24").ok_or("a prefix")?;
    let from = RouterId(0x0a00_0001);
    let to = RouterId(0x0a00_0002);
    let no_path = |why| Status::NoPath(WalkRefusal { why });
    for (status, code, text) in [
        (Status::Usage, 2, "usage"),
        (
            Status::Feed {
                number: 3,
                why: FeedWhy::UnknownRouter,
            },
            3,
            "record 3: unknown router",
        ),
        (
            Status::Roster {
                number: 1,
                line: 2,
                why: RosterWhy::TooMany,
            },
            4,
            "roster line 2: too many",
        ),
        (Status::Read, 5, "read fault"),
        (Status::Write, 6, "write fault"),
        (Status::NoMemory, 7, "no memory"),
        (
            no_path(WalkWhy::Pending { prefix }),
            8,
            "no path: pending 203.0.113.0/24",
        ),
        (no_path(WalkWhy::NoRoute), 8, "no path: no route"),
        (
            no_path(WalkWhy::NotConnected { router: to }),
            8,
            "no path: not connected 10.0.0.2",
        ),
        (
            no_path(WalkWhy::ZeroCost { from, to }),
            8,
            "no path: zero cost 10.0.0.1 10.0.0.2",
        ),
        (Status::NetFault, 9, "net fault"),
    ] {
        assert_eq!(rt; status.code(), code, "{text}");
        let line = status.to_string(rt.alloc())?;
        assert_eq!(rt; line.as_str(), text);
    }
    Ok(())
}

#[test]
fn faults_have_their_words(rt: HostRuntime) -> Result<(), Fail> {
    for (why, number, text) in [
        (FeedWhy::Kind, 1, "kind"),
        (FeedWhy::Length, 2, "length"),
        (FeedWhy::Truncated, 3, "truncated"),
        (FeedWhy::NoRoster, 4, "no roster"),
        (FeedWhy::Twice, 5, "twice"),
        (FeedWhy::UnknownRouter, 6, "unknown router"),
        (FeedWhy::ClockBack, 7, "clock back"),
        (FeedWhy::BadShard, 8, "bad shard"),
        (FeedWhy::TooLong, 9, "too long"),
        (FeedWhy::BadBody, 10, "bad body"),
        (FeedWhy::TooMany, 11, "too many"),
    ] {
        assert_eq!(rt; number_of_fault(why), number, "{text}");
        let word = why.to_string(rt.alloc())?;
        assert_eq!(rt; word.as_str(), text);
    }
    for (why, number, text) in [
        (RosterWhy::Word, 1, "word"),
        (RosterWhy::Number, 2, "number"),
        (RosterWhy::Repeated, 3, "repeated"),
        (RosterWhy::Unknown, 4, "unknown"),
        (RosterWhy::Missing, 5, "missing"),
        (RosterWhy::TooMany, 6, "too many"),
    ] {
        assert_eq!(rt; why as u8, number, "{text}");
        let word = why.to_string(rt.alloc())?;
        assert_eq!(rt; word.as_str(), text);
    }
    Ok(())
}
