//! The commands, and the words of each.

ghost use Rattle.std.specs.Prelude.{◌≡◌, ℕ, List, [], ◌∷◌, map, MatchOption};
ghost use Rattle.rcp_words.specs.Words.{StandFor, StandForNone, IsBesideThreads, number_word};
ghost use Rattle.rcp_words.specs.declared.command.Command.{Command};

use rcp_base::{Prefix, RouterId, read_addr, read_number, read_prefix};

/// What a run is asked to do.
#[derive(Clone, Copy, Debug, PartialEq, Eq)]
pub enum Command {
    /// Reads a feed, and writes its output records.
    Replay,
    /// Reads all input, and then writes a text.
    Report(Report),
    /// Reads nothing, and writes the generated feed of a number.
    Make { number: u32 },
    /// Reads nothing, and writes a line for each summary in the output of the generated feed of a number. With `threads` all
    /// pending prefixes of a D are worked by several threads.
    Trial { number: u32, threads: bool },
}

/// What is reported once all input was read.
#[derive(Clone, Copy, Debug, PartialEq, Eq)]
pub enum Report {
    /// Of one feed, the tables of the connected routers, and how many prefixes are pending.
    Tables,
    /// Of two feeds, the first difference of each partition.
    Agree,
    /// Of one feed, the routers through which packets for a prefix go from a router to its egress.
    Path { router: RouterId, prefix: Prefix },
}

impl Command {
    /// The command that the words after the program's name stand for. None exactly where they stand for none.
    pub fn of_words(words: &[&str]) -> Option<Command>
        ensures { MatchOption result (StandForNone (map (λ word. word.now) words.now)) (λ command. StandFor (map (λ word. word.now) words.now) command) }
    {
        match words.len() {
            1 => of_word(words[0]),
            2 => of_two(words[0], words[1]),
            3 => of_three(words[0], words[1], words[2]),
            _ => None,
        }
    }
}

/// The command of one word.
fn of_word(word: &str) -> Option<Command>
    ensures { MatchOption result (StandForNone (word.now ∷ [])) (λ command. StandFor (word.now ∷ []) command) }
{
    if word == "replay" {
        Some(Command::Replay)
    } else if word == "tables" {
        Some(Command::Report(Report::Tables))
    } else if word == "agree" {
        Some(Command::Report(Report::Agree))
    } else {
        None
    }
}

/// The command of two words.
fn of_two(word: &str, number: &str) -> Option<Command>
    ensures { MatchOption result (StandForNone (word.now ∷ number.now ∷ [])) (λ command. StandFor (word.now ∷ number.now ∷ []) command) }
{
    if word == "make" {
        let number = number_of(number)?;
        return Some(Command::Make { number });
    }
    if word == "trial" {
        let number = number_of(number)?;
        return Some(Command::Trial {
            number,
            threads: false,
        });
    }
    None
}

/// The command of three words.
fn of_three(word: &str, second: &str, third: &str) -> Option<Command>
    ensures { MatchOption result (StandForNone (word.now ∷ second.now ∷ third.now ∷ [])) (λ command. StandFor (word.now ∷ second.now ∷ third.now ∷ []) command) }
{
    if word == "path" {
        let router = read_addr(second.as_bytes())?;
        let prefix = read_prefix(third.as_bytes())?;
        return Some(Command::Report(Report::Path {
            router: RouterId(router.0),
            prefix,
        }));
    }
    if word == "trial" {
        let number = number_beside_threads(second, third)?;
        return Some(Command::Trial {
            number,
            threads: true,
        });
    }
    None
}

/// The number of two words, of which the other one is `--threads`.
fn number_beside_threads(first: &str, second: &str) -> Option<u32>
    ensures { MatchOption result ((n : ℕ) → IsBesideThreads first.now second.now n → ⊥) (IsBesideThreads first.now second.now) }
{
    if first == "--threads" {
        number_of(second)
    } else if second == "--threads" {
        number_of(first)
    } else {
        None
    }
}

/// The number of a word, of 32 bits.
fn number_of(word: &str) -> Option<u32>
    ensures { result ≡ number_word word.now }
{
    let number = read_number(word.as_bytes())?;
    u32::try_from(number).ok()
}

/// Words stand for one command at most.
pub fn words_stand_for_one_command()
    ensures { (words : List (List ℕ)) (one other : Command) → StandFor words one → StandFor words other → one ≡ other }
{}
