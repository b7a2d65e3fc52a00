// Texts of paths.
use super::{LIST, octets};
use crate::path_text;
use std::test::Fail;

// Attributes, and the text of the path among them.
const TEXTS: [(&str, &str); 8] = [
    (LIST, "65001"),
    ("40010100 4002060202fde9fdea 4003040a000001", "65001 65002"),
    // a set between two sequences, and a set alone
    (
        "40021402 02fde9fdea 0103fdebfdecfded 0202fdeefdef",
        "65001 65002 {65003,65004,65005} 65006 65007",
    ),
    ("4002040101fde9", "{65001}"),
    ("400200", "-"),
    ("40010100", "-"),
    // digits
    ("40020c020500000009000a0064ffff", "0 9 10 100 65535"),
    // lengths of two octets
    ("50010001 00 50020004 0201fde9", "65001"),
];

#[test]
fn a_set_is_shown_in_braces(rt: HostRuntime) -> Result<(), Fail> {
    let alloc = rt.alloc();
    for (list, want) in TEXTS {
        let text = path_text(alloc, octets(alloc, list)?.as_slice())?;
        assert_eq!(rt; text.as_slice(), want.as_bytes(), "{list}");
    }
    Ok(())
}
