//! Words of settings, and words of none.

use crate::{Endpoint, Settings};
use rcp_base::Addr;
use std::test::Fail;

/// 127.0.0.1
const HERE: Addr = Addr(2130706433);

/// These words stand for these settings, or for none.
fn stands(words: &[&str], wanted: Option<Settings>) -> Result<(), Fail> {
    if Settings::of_words(words) != wanted {
        return Err("other settings")?;
    }
    Ok(())
}

/// 127.0.0.1:179 for BGP, 0.0.0.0:65535 for link state, and 1024 sessions.
fn largest() -> Settings {
    Settings {
        bgp: Endpoint {
            address: HERE,
            port: 179,
        },
        link_state: Endpoint {
            address: Addr(0),
            port: 65535,
        },
        sessions: 1024,
    }
}

#[test]
fn options_stand_in_any_order_with_either_form_of_value(_rt: HostRuntime) -> Result<(), Fail> {
    let lists: [&[&str]; 7] = [
        &[
            "--bgp",
            "127.0.0.1:179",
            "--ls",
            "0.0.0.0:65535",
            "--sessions",
            "1024",
        ],
        &[
            "--bgp",
            "127.0.0.1:179",
            "--sessions=1024",
            "--ls",
            "0.0.0.0:65535",
        ],
        &[
            "--ls=0.0.0.0:65535",
            "--bgp=127.0.0.1:179",
            "--sessions=1024",
        ],
        &[
            "--ls",
            "0.0.0.0:65535",
            "--sessions",
            "1024",
            "--bgp=127.0.0.1:179",
        ],
        &[
            "--sessions",
            "1024",
            "--bgp",
            "127.0.0.1:179",
            "--ls=0.0.0.0:65535",
        ],
        &[
            "--sessions=1024",
            "--ls",
            "0.0.0.0:65535",
            "--bgp",
            "127.0.0.1:179",
        ],
        &[
            "--sessions=1024",
            "--ls=0.0.0.0:65535",
            "--bgp=127.0.0.1:179",
        ],
    ];
    for words in lists {
        stands(words, Some(largest()))?;
    }
    Ok(())
}

#[test]
fn other_words_stand_for_no_settings(_rt: HostRuntime) -> Result<(), Fail> {
    let lists: [&[&str]; 22] = [
        &[],
        &["--help"],
        &["--"],
        &["--bgp", "127.0.0.1:179"],
        &["--bgp", "127.0.0.1:179", "--ls", "127.0.0.1:2000"],
        &["--bgp=127.0.0.1:179", "--ls=127.0.0.1:2000", "--sessions"],
        &["--bgp=127.0.0.1:179", "--ls=127.0.0.1:2000", "--sessions="],
        &[
            "--bgp=127.0.0.1:179",
            "--ls=127.0.0.1:2000",
            "--sessions=",
            "3",
        ],
        &[
            "--bgp=127.0.0.1:179",
            "--ls=127.0.0.1:2000",
            "--sessions",
            "0",
        ],
        &[
            "--bgp=127.0.0.1:179",
            "--ls=127.0.0.1:2000",
            "--sessions",
            "1025",
        ],
        &[
            "--bgp=127.0.0.1:179",
            "--ls=127.0.0.1:2000",
            "--sessions",
            "03",
        ],
        &[
            "--bgp=127.0.0.1:179",
            "--ls=127.0.0.1:2000",
            "--sessions",
            "3",
            "3",
        ],
        &[
            "--",
            "--bgp=127.0.0.1:179",
            "--ls=127.0.0.1:2000",
            "--sessions",
            "3",
        ],
        &[
            "--bgp=127.0.0.1:179",
            "--ls=127.0.0.1:2000",
            "--sessions",
            "3",
            "--",
        ],
        &[
            "--bgp=127.0.0.1:179",
            "--bgp=127.0.0.1:179",
            "--sessions",
            "3",
        ],
        &[
            "--bgp=127.0.0.1:179",
            "--ls=127.0.0.1:2000",
            "--sessions=3",
            "--sessions=3",
        ],
        &["--bgp=127.0.0.1", "--ls=127.0.0.1:2000", "--sessions=3"],
        &["--bgp=127.0.0.1:0", "--ls=127.0.0.1:2000", "--sessions=3"],
        &[
            "--bgp=127.0.0.1:65536",
            "--ls=127.0.0.1:2000",
            "--sessions=3",
        ],
        &[
            "--bgp=127.0.0.1:179:",
            "--ls=127.0.0.1:2000",
            "--sessions=3",
        ],
        &["--bgp=:179", "--ls=127.0.0.1:2000", "--sessions=3"],
        &["--BGP=127.0.0.1:179", "--ls=127.0.0.1:2000", "--session=3"],
    ];
    for words in lists {
        stands(words, None)?;
    }
    Ok(())
}
