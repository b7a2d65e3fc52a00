// The words of the program, and the line and the code of each outcome.
use super::*;
use feed_text::{Comments, TextFault, Why};
use std::alloc::{AllocError, Global};
use std::test::Fail;

fn owned(alloc: Global, words: &[&str]) -> Result<Vec<String>, AllocError> {
    let mut owned = Vec::new(alloc);
    for word in words {
        owned.push(String::from_str(alloc, word)?)?;
    }
    Ok(owned)
}

/// The task of the words, or the status with which the program ends for them.
fn task_or_code(alloc: Global, words: &[&str]) -> Result<Result<Option<Task>, i32>, AllocError> {
    let words = owned(alloc, words)?;
    let found = task_of(alloc, &words);
    Ok(found.map_err(|error| error.exit_code()))
}

#[test]
fn words_name_a_task(rt: HostRuntime) -> Result<(), Fail> {
    let rows: [(&[&str], Result<Option<Task>, i32>); 6] = [
        (&["rcpfeed", "show"], Ok(Some(Task::Show(Comments::Shown)))),
        (
            &["rcpfeed", "show", "--bare"],
            Ok(Some(Task::Show(Comments::LeftOut))),
        ),
        (&["rcpfeed", "write"], Ok(Some(Task::Write))),
        (&["rcpfeed"], Err(2)),
        (&["rcpfeed", "read"], Err(2)),
        (&["rcpfeed", "--help"], Err(0)),
    ];
    for (words, task) in rows {
        assert_eq!(rt; task_or_code(rt.alloc(), words)?, task);
    }
    Ok(())
}

#[test]
fn an_outcome_has_its_code_and_its_line(rt: HostRuntime) -> Result<(), Fail> {
    let fault = TextFault {
        line: 3,
        word: 2,
        why: Why::Value,
    };
    let rows: [(Outcome, u8, &str); 6] = [
        (Outcome::Usage, 2, "usage"),
        (Outcome::Text(fault), 3, "line 3 word 2: value"),
        (Outcome::TooLong, 3, "too long"),
        (Outcome::Read, 5, "read fault"),
        (Outcome::Write, 6, "write fault"),
        (Outcome::NoMemory, 7, "no memory"),
    ];
    for (outcome, code, line) in rows {
        let text = format!(in rt.alloc(); "{outcome}")?;
        assert_eq!(rt; outcome.code(), code);
        assert_eq!(rt; text.as_str(), line);
    }
    Ok(())
}
