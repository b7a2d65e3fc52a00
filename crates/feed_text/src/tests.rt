// Texts and the octets that they stand for.
use super::*;
use outside::{MemSink, MemSource};
use std::alloc::{AllocError, Global};
use std::test::Fail;

/// What writing a text puts out, and how it ends.
fn written(alloc: Global, text: &[u8]) -> Result<(Vec<u8>, Result<(), WriteFault>), AllocError> {
    let mut source = MemSource::new(text.to_vec(alloc)?, Vec::new(alloc));
    let mut sink = MemSink::new(alloc, Vec::new(alloc));
    let outcome = write(alloc, &mut source, &mut sink);
    Ok((sink.octets().to_vec(alloc)?, outcome))
}

/// What showing octets puts out, and how it ends.
fn shown(alloc: Global, octets: &[u8]) -> Result<(Vec<u8>, Result<(), ShowFault>), AllocError> {
    let mut source = MemSource::new(octets.to_vec(alloc)?, Vec::new(alloc));
    let mut sink = MemSink::new(alloc, Vec::new(alloc));
    let outcome = show(alloc, Comments::Shown, &mut source, &mut sink);
    Ok((sink.octets().to_vec(alloc)?, outcome))
}

/// Lines as they are shown, and the octets of their records.
const ROWS: [(&[u8], &[u8]); 18] = [
    (b"", b""),
    (b"roster\n", b"C\0\0\0\0\0\0\0\0"),
    (
        b"roster\n| as 1\n|- \\\\\\x09\n",
        b"C\0\0\0\0\0\0\0\x07as 1\n\\\x09",
    ),
    (
        b"established 1 10.0.0.1\n",
        b"E\0\0\0\x01\0\0\0\x04\x0a\0\0\x01",
    ),
    (b"connect 4\n", b"U\0\0\0\x04\0\0\0\0"),
    (b"bgp 4\n", b"B\0\0\0\x04\0\0\0\0"),
    (b"bgp 4 octets 0x00ff\n", b"B\0\0\0\x04\0\0\0\x02\0\xff"),
    (b"close 258\n", b"X\0\0\x01\x02\0\0\0\0"),
    (b"time 256\n", b"T\0\0\0\0\0\0\0\x08\0\0\0\0\0\0\x01\0"),
    (b"work 1 500\n", b"W\0\0\0\0\0\0\0\x06\0\x01\0\0\x01\xf4"),
    (b"drain\nend\n", b"D\0\0\0\0\0\0\0\0Z\0\0\0\0\0\0\0\0"),
    (b"ospf octets 0x0204\n", b"L\0\0\0\0\0\0\0\x02\x02\x04"),
    (
        b"ospf ls-update router=10.255.0.1 area=0.0.0.0 router-lsa age=1 id=10.0.0.1 sequence=\
          0x80000001 point-to-point=10.0.0.2:10\n",
        b"L\0\0\0\0\0\0\0@\x02\x04\0@\x0a\xff\0\x01\0\0\0\0\x83)\0\0\0\0\0\0\0\0\0\0\0\0\0\x01\
          \0\x01\x02\x01\x0a\0\0\x01\x0a\0\0\x01\x80\0\0\x01\xceZ\0$\0\0\0\x01\x0a\0\0\x02\0\0\
          \0\0\x01\0\0\x0a",
    ),
    (
        b"ospf ls-update router=10.0.0.7 area=0.0.0.1 autype=1 authentication=0x73656372657400\
          00 router-lsa age=642 options=0x22 id=10.0.0.1 sequence=0x80000a3f flags=0x03 point-\
          to-point=10.0.0.2@192.0.2.1:10+0x05000007 stub=192.0.2.0@255.255.255.252:10 lsa 2 ag\
          e=3 id=10.0.0.9 advertising-router=10.0.0.1 sequence=0x80000002 body=0xffffff000a000\
          0010a000009\n",
        b"L\0\0\0\0\0\0\0p\x02\x04\0p\x0a\0\0\x07\0\0\0\x01\x96V\0\x01secret\0\0\0\0\0\x02\x02\
          \x82\"\x01\x0a\0\0\x01\x0a\0\0\x01\x80\0\x0a?\xd77\04\x03\0\0\x02\x0a\0\0\x02\xc0\0\
          \x02\x01\x01\x01\0\x0a\x05\0\0\x07\xc0\0\x02\0\xff\xff\xff\xfc\x03\0\0\x0a\0\x03\x02\
          \x02\x0a\0\0\x09\x0a\0\0\x01\x80\0\0\x02\x7f\x9d\0 \xff\xff\xff\0\x0a\0\0\x01\x0a\0\
          \0\x09",
    ),
    (
        b"ospf ls-update router=10.0.0.7 area=0.0.0.0 router-lsa age=1 id=10.0.0.1 sequence=0x\
          80000001 checksum=0xffff count=2 rest=0x00\n",
        b"L\0\0\0\0\0\0\05\x02\x04\05\x0a\0\0\x07\0\0\0\0]\xa0\0\0\0\0\0\0\0\0\0\0\0\0\0\x02\0\
          \x01\x02\x01\x0a\0\0\x01\x0a\0\0\x01\x80\0\0\x01\xff\xff\0\x18\0\0\0\0\0",
    ),
    (
        b"ospf packet 1 router=10.0.0.7 area=0.0.0.0 checksum=0x0000 body=0xffffff00000a ; oct\
          ets 0x02\n",
        b"L\0\0\0\0\0\0\0\x1f\x02\x01\0\x1e\x0a\0\0\x07\0\0\0\0\0\0\0\0\0\0\0\0\0\0\0\0\xff\
          \xff\xff\0\0\x0a\x02",
    ),
    (b"record 0x44 7 0x\n", b"D\0\0\0\x07\0\0\0\0"),
    (b"octets 0x44000000\n", b"D\0\0\0"),
];

#[test]
fn octets_are_shown_as_lines_and_lines_are_written_as_octets(rt: HostRuntime) -> Result<(), Fail> {
    let alloc = rt.alloc();
    for (text, octets) in ROWS {
        let (lines, end) = shown(alloc, octets)?;
        assert_eq!(rt; lines.as_slice(), text);
        assert_eq!(rt; end, Ok(()));
        let (records, end) = written(alloc, text)?;
        assert_eq!(rt; records.as_slice(), octets);
        assert_eq!(rt; end, Ok(()));
    }
    Ok(())
}

#[test]
fn blanks_and_comments_are_passed_over(rt: HostRuntime) -> Result<(), Fail> {
    let alloc = rt.alloc();
    let text = b"# a feed\r\n\n roster # here\n# within\n| as 1\r\n\t time\t7 #8\nend".as_slice();
    let (records, end) = written(alloc, text)?;
    assert_eq!(rt; end, Ok(()));
    assert_eq!(rt;
        records.as_slice(),
        b"C\0\0\0\0\0\0\0\x05as 1\nT\0\0\0\0\0\0\0\x08\0\0\0\0\0\0\0\x07Z\0\0\0\0\0\0\0\0".as_slice()
    );
    Ok(())
}

#[test]
fn the_first_faulty_line_is_refused_with_its_word(rt: HostRuntime) -> Result<(), Fail> {
    let alloc = rt.alloc();
    for (text, line, word, why) in [
        (b"foo".as_slice(), 1, 1, Why::Word),
        (b"end\nend now\n".as_slice(), 2, 2, Why::Word),
        (b"time\ntime x\n".as_slice(), 1, 2, Why::Missing),
        (b"time 18446744073709551616".as_slice(), 1, 2, Why::Value),
        (b"connect 4294967296".as_slice(), 1, 2, Why::Value),
        (b"established 1 10.0.0".as_slice(), 1, 3, Why::Value),
        (b"work 65536 x".as_slice(), 1, 2, Why::Value),
        (b"| as 1\n".as_slice(), 1, 1, Why::Roster),
        (b"roster\nend\n| as 1\n".as_slice(), 3, 1, Why::Roster),
        (b"roster\n|as 1\n".as_slice(), 2, 1, Why::Word),
        (b"roster\n| \\n\n".as_slice(), 2, 2, Why::Value),
        (b"bgp 1 octets 0x0\n".as_slice(), 1, 4, Why::Value),
        (
            b"bgp 1 octets 0x00 octets 0x00\n".as_slice(),
            1,
            5,
            Why::Word,
        ),
        (b"bgp 1 octets 0x00 ;\n".as_slice(), 1, 6, Why::Missing),
        (b"bgp 1 update origin=igq\n".as_slice(), 1, 4, Why::Value),
        (
            b"bgp 1 update nlri=10.0.0.0/8 origin=igp\n".as_slice(),
            1,
            5,
            Why::Word,
        ),
        (
            b"bgp 1 update path=65536 nlri=10.0.0.0/33\n".as_slice(),
            1,
            4,
            Why::Value,
        ),
        (b"bgp 1 open hold=90\n".as_slice(), 1, 4, Why::Missing),
        (b"close 1 fault 3/256\n".as_slice(), 1, 4, Why::Value),
        (b"ospf packet 256\n".as_slice(), 1, 3, Why::Value),
        (
            b"ospf ls-update router=1.1.1.1\n".as_slice(),
            1,
            4,
            Why::Missing,
        ),
        (
            b"ospf ls-update router=1.1.1.1 area=0.0.0.0 router-lsa age=1 id=1.1.1.1 sequence=0x80\n".as_slice(),
            1,
            8,
            Why::Value,
        ),
    ] {
        let (_, end) = written(alloc, text)?;
        assert_eq!(rt;
            end,
            Err(WriteFault::Text(TextFault { line, word, why })),
            "at {text:?}"
        );
    }
    Ok(())
}

#[test]
fn a_feed_that_is_cut_has_a_text(rt: HostRuntime) -> Result<(), Fail> {
    let alloc = rt.alloc();
    let feed =
        b"C\0\0\0\0\0\0\0\x04as 1E\0\0\0\x01\0\0\0\x04\x0a\0\0\x01B\0\0\0\x01\0\0\0\x03abc".as_slice();
    for cut in 0..=feed.len() {
        let (front, _) = feed.split_at(cut);
        let (text, _) = shown(alloc, front)?;
        let (octets, end) = written(alloc, &text)?;
        assert_eq!(rt; octets.as_slice(), front, "cut at {cut}");
        assert_eq!(rt; end, Ok(()));
    }
    Ok(())
}

#[test]
fn a_failed_read_and_a_failed_write_are_reported(rt: HostRuntime) -> Result<(), Fail> {
    let alloc = rt.alloc();
    let mut source = MemSource::new(b"end\n".to_vec(alloc)?, [1].to_vec(alloc)?);
    let mut sink = MemSink::new(alloc, Vec::new(alloc));
    assert_eq!(rt; write(alloc, &mut source, &mut sink), Err(WriteFault::Read));
    assert_eq!(rt;
        show(alloc, Comments::Shown, &mut source, &mut sink),
        Ok(())
    );
    assert_eq!(rt; sink.octets(), b"octets 0x656e640a\n".as_slice());
    let mut source = MemSource::new(b"end\n".to_vec(alloc)?, Vec::new(alloc));
    let mut sink = MemSink::new(alloc, [1].to_vec(alloc)?);
    assert_eq!(rt;
        write(alloc, &mut source, &mut sink),
        Err(WriteFault::Write)
    );
    Ok(())
}

/// Records, and the lines that show them: messages, path attributes and capabilities by their names, and in hexadecimal what has
/// none.
const WORDS: [(&[u8], &[u8]); 7] = [
    (
        b"B\0\0\0\x02\0\0\0\x47\
\xff\xff\xff\xff\xff\xff\xff\xff\xff\xff\xff\xff\xff\xff\xff\xff\0\x34\x02\0\0\0\x19\
\x40\x01\x01\0\x40\x02\x04\x02\x01\xfd\xe9\x40\x03\x04\x0a\0\0\x01\x40\x05\x04\0\0\0\x64\x18\xcb\0\x71\
\xff\xff\xff\xff\xff\xff\xff\xff\xff\xff\xff\xff\xff\xff\xff\xff\0\x13\x04",
        b"bgp 2 update origin=igp path=65001 next-hop=10.0.0.1 local-pref=100 nlri=203.0.113.0/24 ; keepalive\n",
    ),
    (
        b"B\0\0\0\x01\0\0\0\x2d\
\xff\xff\xff\xff\xff\xff\xff\xff\xff\xff\xff\xff\xff\xff\xff\xff\0\x2d\x01\x04\x5b\xa0\0\x5a\x0a\0\0\x04\x10\
\x02\x06\x01\x04\0\x01\0\x01\x02\x06\x41\x04\0\x01\x11\x70",
        b"bgp 1 open as=23456 hold=90 id=10.0.0.4 caps=mp:1/1 caps=as4:70000\n",
    ),
    (
        b"B\0\0\0\x01\0\0\0\x16\
\xff\xff\xff\xff\xff\xff\xff\xff\xff\xff\xff\xff\xff\xff\xff\xff\0\x16\x03\x06\x02\x05",
        b"bgp 1 notification 6/2 data=0x05 # Administrative Shutdown\n",
    ),
    (
        b"B\0\0\0\x01\0\0\0\x1b\
\xff\xff\xff\xff\xff\xff\xff\xff\xff\xff\xff\xff\xff\xff\xff\xff\0\x1b\x02\0\0\0\x04\x40\x01\x01\x03",
        b"bgp 1 update origin=0x03\n",
    ),
    (
        b"B\0\0\0\x01\0\0\0\x17\
\xff\xff\xff\xff\xff\xff\xff\xff\xff\xff\xff\xff\xff\xff\xff\xff\0\x17\x02\0\0\0\0",
        b"bgp 1 update # End-of-RIB\n",
    ),
    (
        b"X\0\0\0\x01\0\0\0\x03\x01\x03\x06",
        b"close 1 fault 3/6 # Invalid ORIGIN Attribute\n",
    ),
    (
        b"S\0\0\0\0\0\0\0\x18\0\0\0\0\0\0\0\x03\0\0\0\0\0\0\0\x01\0\0\0\0\0\0\x01\0",
        b"summary routers=3 prefixes=1 updates=256\n",
    ),
];

#[test]
fn messages_are_shown_and_written_as_words(rt: HostRuntime) -> Result<(), Fail> {
    let alloc = rt.alloc();
    for (octets, text) in WORDS {
        let (lines, end) = shown(alloc, octets)?;
        assert_eq!(rt; lines.as_slice(), text);
        assert_eq!(rt; end, Ok(()));
        let (records, end) = written(alloc, text)?;
        assert_eq!(rt; records.as_slice(), octets);
        assert_eq!(rt; end, Ok(()));
    }
    Ok(())
}
