//! Words, and the line and the code of each status.

use crate::{report, texts, words};
use feed_format::{FeedWhy, RosterWhy, Status};
use std::alloc::Global;
use std::env::FillError;
use std::rt::Env;
use std::test::Fail;

/// The words of a program, its name first.
#[derive(Drop)]
struct Words<'a>(&'a [&'a [u8]]);

impl Env for Words<'_> {
    fn arg(&self, i: usize, buf: &mut [u8]) -> Result<usize, FillError> {
        let Some(word) = self.0.get(i) else {
            return Err(FillError::NotPresent);
        };
        if word.len() > buf.len() {
            return Err(FillError::TooLong);
        }
        let (front, _) = buf.split_at_mut(word.len());
        front.copy_from_slice(word);
        Ok(word.len())
    }

    fn var(&self, _name: &str, _buf: &mut [u8]) -> Result<usize, FillError> {
        Err(FillError::NotPresent)
    }

    fn var_at(&self, _i: usize, _buf: &mut [u8]) -> Result<usize, FillError> {
        Err(FillError::NotPresent)
    }
}

fn are_same(found: &[&str], wanted: &[&str]) -> bool {
    if found.len() != wanted.len() {
        return false;
    }
    for place in 0..found.len() {
        if found[place] != wanted[place] {
            return false;
        }
    }
    true
}

/// Whether the texts of the words are these.
fn are_texts(alloc: Global, words: &[String], wanted: &[&str]) -> bool {
    match texts(alloc, words) {
        Ok(found) => are_same(&found, wanted),
        Err(_) => false,
    }
}

/// Whether the words after the program's name are these.
fn are_words(alloc: Global, all: &[&[u8]], wanted: &[&str]) -> bool {
    match words(&(Words(all), alloc)) {
        Ok(found) => are_texts(alloc, &found, wanted),
        Err(_) => false,
    }
}

#[test]
fn words_follow_the_name_of_the_program(rt: HostRuntime) {
    assert!(rt; are_words(rt.alloc(), &[b"rcp"], &[]));
    assert!(rt; are_words(rt.alloc(), &[b"rcp", b"replay", b"it"], &["replay", "it"]));
}

#[test]
fn a_word_that_is_not_text_is_a_fault_of_usage(rt: HostRuntime) {
    let refused = words(&(Words(&[b"rcp", b"replay", b"\xff"]), rt.alloc())).err();
    assert_eq!(rt; refused, Some(Status::Usage));
}

/// Whether a status is reported by this line.
fn is_reported(alloc: Global, status: Status, line: &str) -> Result<bool, Fail> {
    let mut errors = Vec::new(alloc);
    report("rcp", status, &mut errors).map_err(|_| "no line")?;
    Ok(errors.as_slice() == line.as_bytes())
}

#[test]
fn a_status_has_its_code_and_its_line(rt: HostRuntime) -> Result<(), Fail> {
    let rows: [(Status, u8, &str); 8] = [
        (Status::Done, 0, ""),
        (Status::Usage, 2, "rcp: usage\n"),
        (
            Status::Feed {
                number: 3,
                why: FeedWhy::UnknownRouter,
            },
            3,
            "rcp: record 3: unknown router\n",
        ),
        (
            Status::Roster {
                number: 1,
                line: 2,
                why: RosterWhy::Word,
            },
            4,
            "rcp: roster line 2: word\n",
        ),
        (Status::Read, 5, "rcp: read fault\n"),
        (Status::Write, 6, "rcp: write fault\n"),
        (Status::NoMemory, 7, "rcp: no memory\n"),
        (Status::NetFault, 9, "rcp: net fault\n"),
    ];
    for (status, code, line) in rows {
        assert_eq!(rt; status.code(), code);
        assert!(rt; is_reported(rt.alloc(), status, line)?);
    }
    Ok(())
}
