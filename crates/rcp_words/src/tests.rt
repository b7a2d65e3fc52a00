//! The words of commands, and words of none.

use crate::{Command, Report};
use rcp_base::{RouterId, read_prefix};
use std::test::Fail;

/// These words stand for this command, or for none.
fn stands(words: &[&str], wanted: Option<Command>) -> Result<(), Fail> {
    if Command::of_words(words) != wanted {
        return Err("another command")?;
    }
    Ok(())
}

#[test]
fn each_command_has_its_words(_rt: HostRuntime) -> Result<(), Fail> {
    stands(&["replay"], Some(Command::Replay))?;
    stands(&["tables"], Some(Command::Report(Report::Tables)))?;
    stands(&["agree"], Some(Command::Report(Report::Agree)))?;
    stands(&["make", "0"], Some(Command::Make { number: 0 }))?;
    let Some(prefix) = read_prefix(b"203.0.113.0/24") else {
        return Err("no prefix")?;
    };
    let path = Report::Path {
        router: RouterId(167772162),
        prefix,
    };
    stands(
        &["path", "10.0.0.2", "203.0.113.5/24"],
        Some(Command::Report(path)),
    )
}

#[test]
fn threads_stand_on_either_side_of_the_number(_rt: HostRuntime) -> Result<(), Fail> {
    let number = 4294967295;
    let trial = |threads| Some(Command::Trial { number, threads });
    stands(&["trial", "4294967295"], trial(false))?;
    stands(&["trial", "--threads", "4294967295"], trial(true))?;
    stands(&["trial", "4294967295", "--threads"], trial(true))
}

#[test]
fn other_words_stand_for_no_command(_rt: HostRuntime) -> Result<(), Fail> {
    let lists: [&[&str]; 28] = [
        &[],
        &[""],
        &["Replay"],
        &["replays"],
        &["replay", "replay"],
        &["tables", "agree"],
        &["path"],
        &["path", "10.0.0.2"],
        &["path", "10.0.0.256", "203.0.113.0/24"],
        &["path", "10.0.0.2", "203.0.113.0/33"],
        &["path", "10.0.0.2", "203.0.113.0/24", ""],
        &["make"],
        &["make", "x"],
        &["make", "07"],
        &["make", "+7"],
        &["make", ""],
        &["make", "7", "7"],
        &["make", "7", "--threads"],
        &["trial", "4294967296"],
        &["trial", "--threads"],
        &["trial", "--threads", "--threads"],
        &["trial", "7", "--threads", "--threads"],
        &["--threads", "trial", "7"],
        &["trial", "7", "--thread"],
        &["tria", "7"],
        &["help"],
        &["--help"],
        &["--", "replay"],
    ];
    for words in lists {
        stands(words, None)?;
    }
    Ok(())
}
