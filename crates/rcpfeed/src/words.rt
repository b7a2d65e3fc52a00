//! The words of the command line.

use clap::{Arg, ArgAction, Command, Error};
use feed_text::Comments;
use std::alloc::Global;

/// What the program is to do.
#[derive(Clone, Copy, Debug, PartialEq, Eq)]
pub enum Task {
    /// Show records as text.
    Show(Comments),
    /// Write the records of a text.
    Write,
}

/// The task that the words name, the program's name first. An `Err` is the help that was asked for, or what is wrong with
/// the words.
pub fn task_of<'a>(alloc: Global, words: &'a [String]) -> Result<Option<Task>, Error> {
    let bare = Arg::new(alloc, "bare")
        .long("bare")
        .action(ArgAction::SetTrue)
        .help("Write no comments");
    let show = Command::new(alloc, "show")
        .about("Show the records of a feed or an output as text, a line each")
        .arg(bare)?;
    let write = Command::new(alloc, "write").about("Write the records of such a text");
    let command = Command::new(alloc, "rcpfeed")
        .about("Feeds and outputs of rcp as text, from standard input to standard output")
        .subcommand_required(true)
        .subcommand(show)?
        .subcommand(write)?;
    let matches = command.try_get_matches_from(words)?;
    Ok(match matches.subcommand() {
        Some(("show", show)) if show.get_flag("bare") => Some(Task::Show(Comments::LeftOut)),
        Some(("show", _)) => Some(Task::Show(Comments::Shown)),
        Some(("write", _)) => Some(Task::Write),
        _ => None,
    })
}
