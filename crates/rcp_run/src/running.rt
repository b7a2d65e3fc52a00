//! The run of the program, from its words to its status.

ghost use Rattle.std.specs.Prelude.{◌≡◌, ◌≢◌, ◌↔◌, ◌⊎◌, ◌++◌, ℕ, Bool, false, List, Some, map};
ghost use Rattle.outside.specs.Told.{Rose};
ghost use Rattle.rcp_base.specs.IpPrefix.{IpPrefix};
ghost use Rattle.rcp_base.specs.Roster.{RosterOf};
ghost use Rattle.feed_format.specs.declared.status.WalkRefusal.{WalkRefusal};
ghost use Rattle.feed_meaning.specs.WholeFeeds.{feed_meaning};
ghost use Rattle.feed_run.specs.Statuses.{EndsSo};
ghost use Rattle.feed_run.specs.Written.{StopsBy, EndsCut, WroteSo};
ghost use Rattle.rcp_run.specs.Commands.{input_end, input_left, reads_input};
ghost use Rattle.rcp_run.specs.Generated.{WroteOctets, WroteText};
ghost use Rattle.rcp_run.specs.Trials.{trial_text};
ghost use Rattle.rcp_words.specs.Words.{StandForNone, StandFor};
ghost use Rattle.feed_make.specs.Feeds.{feed_octets};
ghost use Rattle.rcp_run.specs.Headline.{HeadlineWritten};
ghost use Rattle.feed_run.specs.Going.{ReadsSo, Answers};
ghost use Rattle.rcp_run.specs.Reports.{CommandCause, IsStatusFor, WroteReport};
ghost use Rattle.rcp_words.specs.declared.command.Command.{Command};
ghost use Rattle.rcp_words.specs.declared.command.Command.TheVariants as command;
ghost use Rattle.rcp_words.specs.declared.command.Report.{Report};
ghost use Rattle.rcp_words.specs.declared.command.Report.TheVariants as report;

use crate::generated::{put_feed, put_trial};
use crate::replay::replay;
use crate::report::put_report;
use feed_run::Status;
use outside::{Sink, Source};
use rcp_words::Command;
use std::alloc::Global;
use std::thread::Threads;

/// Runs the command that the words name, over this source and this sink. It waits for nobody and always returns.
///
/// | Words | What is done |
/// |---|---|
/// | `replay` | reads a feed and writes its output records; the output of a record is written whole before the next record is read |
/// | `tables` | reads a feed, and writes the tables of the connected routers and the number of pending prefixes |
/// | `agree` | reads two feeds, one after the other, and writes a line for each partition of the first: whether it is alike in both, or the first difference |
/// | `path ROUTER PREFIX` | reads a feed, and writes the routers through which packets for the prefix go from the router to its egress |
/// | `make N` | reads nothing, and writes the generated feed of the number |
/// | `trial N` | reads nothing, and writes a line for each summary in the output of that feed |
///
/// `tables`, `agree` and `path` write only after all input was read. No octet after the last record Z is read. With `--threads`, in front
/// of its number or after it, `trial` works all pending prefixes of a D by several threads, and writes the same.
pub fn run<R: Threads + Sync, S: Source, K: Sink>(
    rt: &R,
    alloc: Global,
    words: &[&str],
    source: &mut S,
    sink: &mut K,
) -> Status
    // Usage comes exactly where the words stand for no command. Nothing was read or written then.
    ensures usage { (result ≡ Status.Usage) ↔ StandForNone (map (λ word. word.now) words.now) }
    ensures nothing_read { result ≡ Status.Usage → S.left source.new ≡ S.left source.old }
    ensures nothing_written { result ≡ Status.Usage → K.taken sink.new ≡ K.taken sink.old }

    // A fault of the source or of the sink is reported only where there was one. NoPath comes from `path` alone, and NetFault never.
    ensures read { result ≡ Status.Read → Rose (S.faults source.old) (S.faults source.new) }
    ensures write { result ≡ Status.Write → Rose (K.faults sink.old) (K.faults sink.new) }
    ensures no_path { (refused : WalkRefusal) → result ≡ Status.NoPath refused
        → (router : ℕ) × (prefix : IpPrefix) × StandFor (map (λ word. word.now) words.now) (command.Report (report.Path router prefix)) }
    ensures no_net_fault { result ≢ Status.NetFault }

    // Done comes only where the input of the command ended at its Z, Feed exactly at the first faulty record, and Roster at the
    // first faulty line of a roster.
    ensures ended { (command : Command) → StandFor (map (λ word. word.now) words.now) command → (octets : List ℕ) → S.left source.old ≡ Some octets
        → EndsSo result (input_end command octets) }

    // On Done the input was read through its Z, and no octet after it was taken. On Feed and Roster none was taken after the
    // frame of the faulty record. On Read those that were taken have no fault but that the last record is cut.
    ensures through { (command : Command) → StandFor (map (λ word. word.now) words.now) command → result ≡ Status.Done → (octets : List ℕ) → S.left source.old ≡ Some octets
        → S.left source.new ≡ Some (input_left command octets) }
    ensures stops { (octets : List ℕ) → S.left source.old ≡ Some octets → StopsBy 0 result octets (S.left source.new) }
    ensures cut { (command : Command) → StandFor (map (λ word. word.now) words.now) command → result ≡ Status.Read → (octets : List ℕ) → S.left source.old ≡ Some octets
        → EndsCut (input_end command) octets (S.left source.new) }

    // What `replay` wrote is the output of whole records, those that the status says. After a failed write a part of the next
    // one's follows.
    ensures written { StandFor (map (λ word. word.now) words.now) command.Replay → (octets : List ℕ) → S.left source.old ≡ Some octets
        → WroteSo result octets (S.left source.new) (K.taken sink.old) (K.taken sink.new) }

    // The headline: after each of these records, the octets written so far, read as output records, have for each connected
    // router messages that replay, at each prefix that isn't pending, to exactly what it is offered.
    ensures headline { StandFor (map (λ word. word.now) words.now) command.Replay
        → (octets before written : List ℕ) (roster : RosterOf) → S.left source.old ≡ Some octets → (feed_meaning octets).roster ≡ Some roster
        → K.taken sink.old ≡ Some before → K.taken sink.new ≡ Some (before ++ written)
        → HeadlineWritten result roster octets (S.left source.new) written }

    // The reports write nothing but on Done their whole text, and on Write a part of it. NoPath has its cause.
    ensures text { (report : Report) → StandFor (map (λ word. word.now) words.now) (command.Report report) → (octets : List ℕ) → S.left source.old ≡ Some octets
        → WroteReport report octets result (K.taken sink.old) (K.taken sink.new) }
    ensures silent { (report : Report) → StandFor (map (λ word. word.now) words.now) (command.Report report) → result ≢ Status.Done → result ≢ Status.Write
        → K.taken sink.new ≡ K.taken sink.old }

    // `make` writes the generated feed: on Done all of it, on Write a front of it and not all, on NoMemory a front. `trial` writes the
    // lines of that feed's summaries: on Done all of them, on Write a front and not all, and else nothing. Neither reads.
    ensures made { (number : ℕ) → StandFor (map (λ word. word.now) words.now) (command.Make number)
        → WroteOctets (feed_octets number) result (K.taken sink.old) (K.taken sink.new) }
    ensures tried { (number : ℕ) (threads : Bool) → StandFor (map (λ word. word.now) words.now) (command.Trial number threads)
        → WroteText (trial_text number) result (K.taken sink.old) (K.taken sink.new) }
    ensures unread { (command : Command) → StandFor (map (λ word. word.now) words.now) command → reads_input command ≡ false
        → S.left source.new ≡ S.left source.old }

    // With the words of a command and no fault of source or sink, the status is that of the input's end, or NoMemory. Where
    // `path` has read all input, there may be no path.
    ensures complete { (command : Command) → StandFor (map (λ word. word.now) words.now) command → (octets : List ℕ) → S.left source.old ≡ Some octets
        → (Rose (S.faults source.old) (S.faults source.new) → ⊥) → (Rose (K.faults sink.old) (K.faults sink.new) → ⊥)
        → IsStatusFor command (input_end command octets) result ⊎ (result ≡ Status.NoMemory) }
{
    match Command::of_words(words) {
        Some(command) => run_command(rt, alloc, command, source, sink),
        None => Status::Usage,
    }
}

/// Runs a command.
fn run_command<R: Threads + Sync, S: Source, K: Sink>(
    rt: &R,
    alloc: Global,
    asked: Command,
    source: &mut S,
    sink: &mut K,
) -> Status
    ensures reads { (octets : List ℕ) → S.left source.old ≡ Some octets → ReadsSo (input_end asked) (input_left asked) 0 result octets (S.left source.new) }
    ensures replayed { asked ≡ command.Replay → (octets : List ℕ) → S.left source.old ≡ Some octets
        → Answers result octets (S.left source.new) (K.taken sink.old) (K.taken sink.new) }
    ensures wrote { (report : Report) → asked ≡ command.Report report → (octets : List ℕ) → S.left source.old ≡ Some octets
        → WroteReport report octets result (K.taken sink.old) (K.taken sink.new) }
    ensures silent { (report : Report) → asked ≡ command.Report report → result ≢ Status.Done → result ≢ Status.Write → K.taken sink.new ≡ K.taken sink.old }
    ensures made { (number : ℕ) → asked ≡ command.Make number → WroteOctets (feed_octets number) result (K.taken sink.old) (K.taken sink.new) }
    ensures tried { (number : ℕ) (threads : Bool) → asked ≡ command.Trial number threads → WroteText (trial_text number) result (K.taken sink.old) (K.taken sink.new) }
    ensures unread { reads_input asked ≡ false → S.left source.new ≡ S.left source.old }
    ensures cause { CommandCause asked result (S.faults source.old) (S.faults source.new) (K.faults sink.old) (K.faults sink.new) }
{
    match asked {
        Command::Replay => replay(rt, alloc, source, sink),
        Command::Report(report) => put_report(rt, alloc, report, source, sink),
        Command::Make { number } => put_feed(alloc, number, sink),
        Command::Trial { number, threads } => put_trial(rt, alloc, number, threads, sink),
    }
}
