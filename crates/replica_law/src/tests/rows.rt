//! The text of answers over networks of four routers.

use super::recorded::{Link, make_recorded};
use crate::{agree, text_of};
use rcp_base::{NoMemory, Prefix};
use std::alloc::Global;
use std::test::Fail;

/// 10.0.0.1 with 10.0.0.2, and 10.0.0.3 with 10.0.0.4.
const PAIRS: [Link; 2] = [(1, 2, 10), (3, 4, 5)];

/// The same, with another cost between the last two.
const DEARER: [Link; 2] = [(1, 2, 10), (3, 4, 6)];

/// 10.0.0.3 moved from 10.0.0.4 to 10.0.0.2.
const MOVED: [Link; 2] = [(1, 2, 10), (2, 3, 5)];

const SAME: &[u8] = b"partition 10.0.0.1 same\npartition 10.0.0.3 same\n";

const LINK: &[u8] =
    b"partition 10.0.0.1 same\npartition 10.0.0.3 differs link 10.0.0.3 10.0.0.4 5 6\n";

const MEMBER: &[u8] =
    b"partition 10.0.0.1 differs member 10.0.0.3 no yes\npartition 10.0.0.3 differs member 10.0.0.1 no yes\n";

const ROUTE: &[u8] =
    b"partition 10.0.0.1 differs route 10.0.0.1 203.0.113.0/24 400101004002040201fde94003040a00000140050400000064 none\npartition 10.0.0.3 same\n";

/// The text of the answers about the pairs, whose first router announces a route, and another network.
fn text_beside(
    alloc: Global,
    links: &[Link; 2],
    prefix: Prefix,
    announced: bool,
) -> Result<Vec<u8>, NoMemory> {
    let first = make_recorded(alloc, &PAIRS, prefix, true)?;
    let second = make_recorded(alloc, links, prefix, announced)?;
    let answers = agree(alloc, &first, &second)?;
    text_of(alloc, answers.as_slice())
}

#[test]
fn first_difference_of_each_partition_is_written(rt: HostRuntime) -> Result<(), Fail> {
    let prefix = Prefix::new(0xcb00_7100, 24).ok_or("length")?;
    let rows = [
        (PAIRS, true, SAME),
        (DEARER, true, LINK),
        (MOVED, true, MEMBER),
        (PAIRS, false, ROUTE),
    ];
    for (links, announced, want) in rows {
        let text = text_beside(rt.alloc(), &links, prefix, announced)?;
        assert!(rt; text.as_slice() == want);
    }
    Ok(())
}
