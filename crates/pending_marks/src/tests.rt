use crate::PendingMarks;
use rcp_base::Prefix;
use std::test::Fail;

#[test]
fn marked_prefixes_are_taken_as_they_rise(rt: HostRuntime) -> Result<(), Fail> {
    let mut marks = PendingMarks::new(rt.alloc());
    let a = Prefix::new(0x0a00_0100, 24).ok_or("length")?;
    let b = Prefix::new(0x0a00_0200, 24).ok_or("length")?;
    let c = Prefix::new(0x0a00_0300, 24).ok_or("length")?;
    for p in [b, c, a, b] {
        marks.open(p)?;
    }
    assert_eq!(rt; marks.least(), None);
    for p in [c, a, c] {
        if marks.is_opened(p) {
            marks.mark(p);
        }
    }
    assert_eq!(rt; marks.count(), 2);
    assert!(rt; !marks.is_marked(b));
    assert_eq!(rt; marks.take_least(), Some(a));
    assert_eq!(rt; marks.least(), Some(c));
    if marks.is_opened(b) {
        marks.mark(b);
    }
    assert_eq!(rt; marks.take_least(), Some(b));
    assert_eq!(rt; marks.take_least(), Some(c));
    assert_eq!(rt; marks.take_least(), None);
    assert_eq!(rt; marks.count(), 0);
    Ok(())
}
