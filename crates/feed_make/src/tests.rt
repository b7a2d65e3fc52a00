//! Feeds that are written, beside figures of a program in another language that follows the same description.

use crate::{MakeRefusal, make};
use outside::MemSink;
use std::alloc::Global;
use std::test::Fail;

/// The octets of a feed, in a sink whose writes of these numbers fail.
fn made(alloc: Global, number: u32, fails: &[u64]) -> Result<(Vec<u8>, Option<MakeRefusal>), Fail> {
    let mut sink = MemSink::new(alloc, Vec::from_slice(alloc, fails)?);
    let refusal = make(alloc, number, &mut sink).err();
    let octets = Vec::from_slice(alloc, sink.octets())?;
    Ok((octets, refusal))
}

/// A sum of octets in which each place counts.
fn sum_of(octets: &[u8]) -> u32 {
    let mut sum = 0u32;
    for octet in octets {
        sum = sum.wrapping_mul(31).wrapping_add(u32::from(*octet));
    }
    sum
}

/// Numbers, and of their feeds how many octets they have and the sum of those.
const FEEDS: [(u32, usize, u32); 3] = [
    (0, 408_545, 2_311_526_580),
    (7, 408_593, 3_246_742_369),
    (u32::MAX, 408_509, 481_664_268),
];

#[test]
fn feeds_have_the_octets_of_another_program(rt: HostRuntime) -> Result<(), Fail> {
    for (number, len, sum) in FEEDS {
        let (octets, refusal) = made(rt.alloc(), number, &[])?;
        assert_eq!(rt; refusal, None);
        assert_eq!(rt;
            (octets.len(), sum_of(&octets)),
            (len, sum),
            "feed {number}"
        );
    }
    Ok(())
}

#[test]
fn a_failed_write_leaves_a_front_of_the_feed(rt: HostRuntime) -> Result<(), Fail> {
    let (all, _) = made(rt.alloc(), 7, &[])?;
    let (octets, refusal) = made(rt.alloc(), 7, &[2000])?;
    assert_eq!(rt; refusal, Some(MakeRefusal::Write));
    assert!(rt; octets.len() < all.len());
    assert!(rt; all.starts_with(&octets));
    Ok(())
}
