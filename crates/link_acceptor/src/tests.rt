//! Nets in memory.

use crate::{Accepting, FreshLink, LinkQueue, accept};
use outside::{MemLink, MemNet, StopMark};
use std::test::Fail;

#[test]
fn a_net_that_fails_at_once_hands_on_nothing_and_sets_the_mark(
    rt: HostRuntime,
) -> Result<(), Fail> {
    let alloc = rt.alloc();
    let mut net: MemNet<MemLink> = MemNet::new(
        Vec::new(alloc),
        Vec::new(alloc),
        vec![in alloc; 1]?,
    );
    let queue: LinkQueue<FreshLink<MemLink>> = LinkQueue::new(alloc, 1)?;
    let links = vec![in alloc; queue]?;
    let streams = LinkQueue::new(alloc, 16)?;
    let stop = StopMark::new(true);
    let ended = accept(&rt, &mut net, &links, &streams, &stop);
    let wanted = Accepting {
        handed_on: 0,
        failed: true,
    };
    assert_eq!(rt; (ended, stop.is_set()), (wanted, true));
    Ok(())
}

#[test]
fn a_queue_hands_links_on_in_their_order_and_one_that_is_full_hands_it_back(
    rt: HostRuntime,
) -> Result<(), Fail> {
    let queue = LinkQueue::new(rt.alloc(), 2)?;
    assert_eq!(rt; queue.push(&rt, 'a'), Ok(()));
    assert_eq!(rt; queue.push(&rt, 'b'), Ok(()));
    assert_eq!(rt; queue.push(&rt, 'c'), Err('c'));
    queue.rest(&rt, 1);
    assert_eq!(rt;
        [queue.pop(&rt), queue.pop(&rt), queue.pop(&rt)],
        [Some('a'), Some('b'), None]
    );
    Ok(())
}
