// Valid and faulty feeds, each as its octets.
ghost use Rattle.std.specs.Prelude.{◌≡◌, false, length, ◌<◌, ◌^◌};

use super::*;
use crate::record::Out;
use crate::writing::write_out;
use outside::{MemSink, MemSource};
use std::test::Fail;

/// An empty roster, and a connection with number 1.
const START: &[u8] = b"C\0\0\0\0\0\0\0\0E\0\0\0\x01\0\0\0\x04\x0a\0\0\x01";

/// How many records are there up to a Z, and the refusal where there is none.
fn read_feed(reader: &mut Reader, source: &mut MemSource) -> (u64, Option<FeedRefusal>)
    requires { reader.old.closed ≡ false }
{
    for count in 0..u64::MAX {
        match reader.next(source) {
            Ok(
                Record {
                    kind: Kind::Finish,
                    ..
                },
            ) => return (count + 1, None),
            Ok(_) => (),
            Err(refusal) => return (count, Some(refusal)),
        }
    }
    (u64::MAX, None)
}

fn outcome(alloc: Global, octets: &[u8]) -> Result<(u64, Option<FeedRefusal>), AllocError> {
    let mut source = MemSource::new(octets.to_vec(alloc)?, Vec::new(alloc));
    Ok(read_feed(&mut Reader::new(alloc), &mut source))
}

fn frame(feed: &mut Vec<u8>, kind: u8, source: u32, body: &[u8]) -> Result<(), AllocError>
    requires { length body.now < 2 ^ 32 }
{
    feed.push(kind)?;
    feed.extend_from_slice(&source.to_be_bytes())?;
    feed.extend_from_slice(&(body.len() as u32).to_be_bytes())?;
    feed.extend_from_slice(body)
}

#[test]
fn the_first_record_is_refused_by_the_first_check_that_fails(rt: HostRuntime) -> Result<(), Fail> {
    for (octets, why) in [
        (b"".as_slice(), FeedWhy::Truncated),
        (b"C\0\0\0\0\0\0\0".as_slice(), FeedWhy::Truncated),
        (b"?\0\0\0\0\0\x01\0\x01".as_slice(), FeedWhy::Kind),
        (b"E\0\0\0\0\0\x01\0\x01".as_slice(), FeedWhy::NoRoster),
        (b"Z\0\0\0\0\0\0\0\0".as_slice(), FeedWhy::NoRoster),
        (b"C\0\0\0\x01\0\x01\0\x01".as_slice(), FeedWhy::Length),
        (b"C\0\0\0\x01\0\0\0\x02a".as_slice(), FeedWhy::Truncated),
        (b"C\0\0\0\x01\0\0\0\x02ab".as_slice(), FeedWhy::BadBody),
    ] {
        let (count, refusal) = outcome(rt.alloc(), octets)?;
        assert_eq!(rt; count, 0, "at {octets:?}");
        assert_eq!(rt;
            refusal,
            Some(FeedRefusal::Feed { number: 1, why }),
            "at {octets:?}"
        );
    }
    Ok(())
}

#[test]
fn a_later_record_is_refused_by_the_first_check_that_fails(rt: HostRuntime) -> Result<(), Fail> {
    let alloc = rt.alloc();
    for (octets, number, why) in [
        (b"".as_slice(), 3, FeedWhy::Truncated),
        (b"Y\0\0\0\0\0\0\0\0".as_slice(), 3, FeedWhy::Kind),
        (b"c\0\0\0\0\0\0\0\0".as_slice(), 3, FeedWhy::Kind),
        (b"C\0\0\0\x01\0\x01\0\x01".as_slice(), 3, FeedWhy::Twice),
        (b"B\0\0\0\0\0\x01\0\x01".as_slice(), 3, FeedWhy::Length),
        (
            b"E\0\0\0\x01\0\0\0\x05\x0a\0\0\x02\0".as_slice(),
            3,
            FeedWhy::Length,
        ),
        (b"Z\0\0\0\0\0\0\0\x01z".as_slice(), 3, FeedWhy::Length),
        (
            b"T\0\0\0\x01\0\0\0\x08\0\0\0\0\0\0\0".as_slice(),
            3,
            FeedWhy::Truncated,
        ),
        (
            b"T\0\0\0\x01\0\0\0\x08\0\0\0\0\0\0\0\0".as_slice(),
            3,
            FeedWhy::BadBody,
        ),
        (b"U\0\0\0\0\0\0\0\0".as_slice(), 3, FeedWhy::BadBody),
        (b"X\0\0\0\0\0\0\0\0".as_slice(), 3, FeedWhy::BadBody),
        (b"B\0\0\0\0\0\0\0\0".as_slice(), 3, FeedWhy::BadBody),
        (b"L\0\0\0\x01\0\0\0\0".as_slice(), 3, FeedWhy::BadBody),
        (
            b"W\0\0\0\x01\0\0\0\x06\0\0\0\0\0\0".as_slice(),
            3,
            FeedWhy::BadBody,
        ),
        (b"D\0\0\0\x01\0\0\0\0".as_slice(), 3, FeedWhy::BadBody),
        (b"Z\0\0\0\x01\0\0\0\0".as_slice(), 3, FeedWhy::BadBody),
        (b"U\0\0\0\x01\0\0\0\0".as_slice(), 3, FeedWhy::Twice),
        (
            b"E\0\0\0\x01\0\0\0\x04\x0a\0\0\x02".as_slice(),
            3,
            FeedWhy::Twice,
        ),
        (
            b"X\0\0\0\x01\0\0\0\0U\0\0\0\x01\0\0\0\0".as_slice(),
            4,
            FeedWhy::Twice,
        ),
        (
            b"T\0\0\0\0\0\0\0\x08\0\0\0\0\0\0\x01\0T\0\0\0\0\0\0\0\x08\0\0\0\0\0\0\0\xff".as_slice(),
            4,
            FeedWhy::ClockBack,
        ),
        (
            b"T\0\0\0\0\0\0\0\x08\0\0\0\0\0\0\x01\0T\0\0\0\x01\0\0\0\x08\0\0\0\0\0\0\0\xff".as_slice(),
            4,
            FeedWhy::BadBody,
        ),
        (
            b"T\0\0\0\0\0\0\0\x08\0\0\0\0\0\0\x01\0T\0\0\0\0\0\0\0\x08\0\0\0\0\0\0\0".as_slice(),
            4,
            FeedWhy::Truncated,
        ),
    ] {
        let mut feed = START.to_vec(alloc)?;
        feed.extend_from_slice(octets)?;
        let (_, refusal) = outcome(alloc, &feed)?;
        assert_eq!(rt;
            refusal,
            Some(FeedRefusal::Feed { number, why }),
            "at {octets:?}"
        );
    }
    Ok(())
}

/// A valid feed of more than 200 octets and where each of its records ends.
fn long_feed(alloc: Global) -> Result<(Vec<u8>, [usize; 6]), AllocError> {
    let mut feed = Vec::new(alloc);
    frame(&mut feed, b'C', 0, &[b'#'; 60])?;
    frame(&mut feed, b'U', 7, &[])?;
    frame(&mut feed, b'B', 7, &[0xff; 90])?;
    frame(&mut feed, b'T', 0, &[0, 0, 0, 0, 0, 0, 0, 9])?;
    frame(&mut feed, b'W', 0, &[0, 1, 0, 0, 0, 9])?;
    frame(&mut feed, b'Z', 0, &[])?;
    Ok((feed, [69, 78, 177, 194, 209, 218]))
}

#[test]
fn a_feed_that_is_cut_is_truncated_where_it_is_cut(rt: HostRuntime) -> Result<(), Fail> {
    let alloc = rt.alloc();
    let (feed, ends) = long_feed(alloc)?;
    assert_eq!(rt; feed.len(), ends[5]);
    for cut in 0..feed.len() {
        let (front, _) = feed.split_at(cut);
        let whole = ends.iter().filter(|end| **end <= cut).count() as u64;
        let (count, refusal) = outcome(alloc, front)?;
        let why = FeedWhy::Truncated;
        assert_eq!(rt; count, whole, "cut at {cut}");
        assert_eq!(rt;
            refusal,
            Some(FeedRefusal::Feed {
                number: count.saturating_add(1),
                why
            }),
            "cut at {cut}"
        );
    }
    assert_eq!(rt; outcome(alloc, &feed)?, (6, None));
    Ok(())
}

#[test]
fn nothing_behind_the_z_is_taken(rt: HostRuntime) -> Result<(), Fail> {
    let alloc = rt.alloc();
    let (mut feed, _) = long_feed(alloc)?;
    feed.extend_from_slice(b"rest")?;
    let mut source = MemSource::new(feed, Vec::new(alloc));
    assert_eq!(rt; read_feed(&mut Reader::new(alloc), &mut source), (6, None));
    let mut rest = [0; 9];
    assert_eq!(rt; source.read(&mut rest), Ok(4));
    assert_eq!(rt; &rest, b"rest\0\0\0\0\0");
    Ok(())
}

#[test]
fn a_body_has_65536_octets_at_most(rt: HostRuntime) -> Result<(), Fail> {
    let alloc = rt.alloc();
    let mut feed = Vec::new(alloc);
    frame(&mut feed, b'C', 0, &vec![in alloc; b'#'; 65536]?)?;
    frame(&mut feed, b'L', 0, &vec![in alloc; 0; 65537]?)?;
    let (count, refusal) = outcome(alloc, &feed)?;
    let why = FeedWhy::Length;
    assert_eq!(rt;
        (count, refusal),
        (1, Some(FeedRefusal::Feed { number: 2, why }))
    );
    Ok(())
}

#[test]
fn an_ended_connection_makes_room_for_another(rt: HostRuntime) -> Result<(), Fail> {
    let alloc = rt.alloc();
    let mut feed = Vec::new(alloc);
    frame(&mut feed, b'C', 0, &[])?;
    for number in 1..=4096 {
        frame(&mut feed, b'U', number, &[])?;
    }
    frame(&mut feed, b'X', 5000, &[])?;
    frame(&mut feed, b'X', 4000, &[])?;
    frame(&mut feed, b'X', 4000, &[])?;
    frame(&mut feed, b'U', 4097, &[])?;
    frame(&mut feed, b'U', 5000, &[])?;
    let (_, refusal) = outcome(alloc, &feed)?;
    let why = FeedWhy::TooMany;
    assert_eq!(rt; refusal, Some(FeedRefusal::Feed { number: 4102, why }));
    Ok(())
}

#[test]
fn too_many_is_the_last_check_of_a_connection(rt: HostRuntime) -> Result<(), Fail> {
    let alloc = rt.alloc();
    for (connection, why) in [
        (0, FeedWhy::BadBody),
        (4096, FeedWhy::Twice),
        (4097, FeedWhy::TooMany),
    ] {
        let mut feed = Vec::new(alloc);
        frame(&mut feed, b'C', 0, &[])?;
        for number in 1..=4096 {
            frame(&mut feed, b'U', number, &[])?;
        }
        frame(&mut feed, b'U', connection, &[])?;
        let (_, refusal) = outcome(alloc, &feed)?;
        assert_eq!(rt; refusal, Some(FeedRefusal::Feed { number: 4098, why }));
    }
    Ok(())
}

#[test]
fn a_feed_that_is_too_long_ends_before_a_read(rt: HostRuntime) -> Result<(), Fail> {
    let alloc = rt.alloc();
    let mut source = MemSource::new(START.to_vec(alloc)?, [1].to_vec(alloc)?);
    let mut reader = Reader::new(alloc);
    reader.octets = 1 << 40;
    let why = FeedWhy::TooLong;
    let refusal = Some(FeedRefusal::Feed { number: 1, why });
    assert_eq!(rt; read_feed(&mut reader, &mut source), (0, refusal));
    Ok(())
}

#[test]
fn a_failed_read_is_told(rt: HostRuntime) -> Result<(), Fail> {
    let alloc = rt.alloc();
    for (call, whole) in [(1, 0), (2, 1), (3, 1), (4, 2)] {
        let mut source = MemSource::new(START.to_vec(alloc)?, [call].to_vec(alloc)?);
        let outcome = read_feed(&mut Reader::new(alloc), &mut source);
        assert_eq!(rt;
            outcome,
            (whole, Some(FeedRefusal::Read)),
            "read {call} fails"
        );
    }
    Ok(())
}

#[test]
fn a_further_feed_begins_anew_and_its_numbers_go_on(rt: HostRuntime) -> Result<(), Fail> {
    let alloc = rt.alloc();
    let (mut feed, _) = long_feed(alloc)?;
    let (again, _) = long_feed(alloc)?;
    feed.extend_from_slice(&again)?;
    feed.extend_from_slice(&again)?;
    let mut source = MemSource::new(feed, Vec::new(alloc));
    let mut reader = Reader::new(alloc);
    assert_eq!(rt; read_feed(&mut reader, &mut source), (6, None));
    reader.restart();
    assert_eq!(rt; read_feed(&mut reader, &mut source), (6, None));
    reader.restart();
    reader.started = true;
    let why = FeedWhy::Twice;
    let refusal = Some(FeedRefusal::Feed { number: 13, why });
    assert_eq!(rt; read_feed(&mut reader, &mut source), (0, refusal));
    Ok(())
}

#[test]
fn what_is_written_is_read_again(rt: HostRuntime) -> Result<(), Fail> {
    let alloc = rt.alloc();
    let mut sink = MemSink::new(alloc, [4].to_vec(alloc)?);
    let roster = Out {
        kind: b'C',
        connection: 0,
        body: b"as 65000".to_vec(alloc)?,
    };
    assert_eq!(rt; write_out(&roster, &mut sink), Ok(()));
    assert_eq!(rt; sink.octets(), b"C\0\0\0\0\0\0\0\x08as 65000".as_slice());
    let mut source = MemSource::new(sink.octets().to_vec(alloc)?, Vec::new(alloc));
    let record = Reader::new(alloc)
        .next(&mut source)
        .map_err(|_| "no record")?;
    assert_eq!(rt; (record.kind, record.source), (Kind::Roster, 0));
    assert_eq!(rt; record.body.as_slice(), b"as 65000".as_slice());
    assert!(rt;
        write_out(&roster, &mut sink).is_err(),
        "its fourth write fails"
    );
    assert_eq!(rt; sink.octets().len(), 26);
    Ok(())
}
