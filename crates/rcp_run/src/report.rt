//! The commands that report on feeds: all input is read first, and then a text is written.

ghost use Rattle.std.specs.Prelude.{◌≡◌, ◌≢◌, ℕ, ◌∷◌, ◌++◌, List, Some, map, IfOk, OnOk, IfErr};
ghost use Rattle.std.specs.List.{join_with_byte};
ghost use Rattle.rcp_base.specs.Text.{address_text};
ghost use Rattle.feed_run.specs.Going.{HasCounts, ReadsSo};
ghost use Rattle.rcp_run.specs.Commands.{report_end, report_left};
ghost use Rattle.rcp_run.specs.Reports.{ReportCause, WroteReport, path_line};
ghost use Rattle.rcp_run.specs.Making.{IsMade, IsUnmade, MadeCause, IsPathOn, IsRefusedOn, IsAgreementOf, FollowsFeed};
ghost use Rattle.rcp_words.specs.declared.command.Report.TheVariants as report;

use crate::tables::tables_of;
use feed_run::{FeedRun, Reader, Status, read_feed};
use hop_walk::{WalkError, walk};
use outside::{Sink, Source, write_all};
use platform_core::Platform;
use rcp_base::{NoMemory, Prefix, RouterId};
use rcp_words::Report;
use replica_law::{agree, text_of};
use std::alloc::Global;
use std::thread::Threads;

/// Reads all input of a report, and then writes its text. Nothing is written where there is none.
pub fn put_report<R: Threads + Sync, S: Source, K: Sink>(
    rt: &R,
    alloc: Global,
    report: Report,
    source: &mut S,
    sink: &mut K,
) -> Status
    ensures reads { (octets : List ℕ) → S.left source.old ≡ Some octets → ReadsSo (report_end report) (report_left report) 0 result octets (S.left source.new) }
    ensures wrote { (octets : List ℕ) → S.left source.old ≡ Some octets → WroteReport report octets result (K.taken sink.old) (K.taken sink.new) }
    ensures silent { result ≢ Status.Done → result ≢ Status.Write → K.taken sink.new ≡ K.taken sink.old }
    ensures cause { ReportCause report result (S.faults source.old) (S.faults source.new) (K.faults sink.old) (K.faults sink.new) }
{
    let text = match report_of(rt, alloc, report, source) {
        Ok(text) => text,
        Err(status) => return status,
    };
    match write_all(sink, &text) {
        Ok(()) => Status::Done,
        Err(_) => Status::Write,
    }
}

/// The text of a report on the feeds of a source.
fn report_of<R: Threads + Sync, S: Source>(
    rt: &R,
    alloc: Global,
    report: Report,
    source: &mut S,
) -> Result<Vec<u8>, Status>
    ensures made { IfOk result (λ text. (octets : List ℕ) → S.left source.old ≡ Some octets → IsMade report octets text.items (S.left source.new)) }
    ensures unmade { IfErr result (λ status. (octets : List ℕ) → S.left source.old ≡ Some octets → IsUnmade report octets status (S.left source.new)) }
    ensures cause { IfErr result (λ status. MadeCause report status (S.faults source.old) (S.faults source.new)) }
{
    match report {
        Report::Tables => tables(rt, alloc, source),
        Report::Agree => agreement(rt, alloc, source),
        Report::Path { router, prefix } => path(rt, alloc, router, prefix, source),
    }
}

/// The tables after a feed.
fn tables<R: Threads + Sync, S: Source>(
    rt: &R,
    alloc: Global,
    source: &mut S,
) -> Result<Vec<u8>, Status>
    ensures made { IfOk result (λ text. (octets : List ℕ) → S.left source.old ≡ Some octets → IsMade report.Tables octets text.items (S.left source.new)) }
    ensures unmade { IfErr result (λ status. (octets : List ℕ) → S.left source.old ≡ Some octets → IsUnmade report.Tables octets status (S.left source.new)) }
    ensures cause { IfErr result (λ status. MadeCause report.Tables status (S.faults source.old) (S.faults source.new)) }
{
    let feed = match read_feed(rt, alloc, Reader::new(alloc), 0, source) {
        Ok(feed) => feed,
        Err(status) => return Err(status),
    };
    match tables_of(alloc, &feed.platform) {
        Ok(text) => Ok(text),
        Err(_) => Err(Status::NoMemory),
    }
}

/// The path from a router to its egress, after a feed.
fn path<R: Threads + Sync, S: Source>(
    rt: &R,
    alloc: Global,
    router: RouterId,
    prefix: Prefix,
    source: &mut S,
) -> Result<Vec<u8>, Status>
    ensures made { IfOk result (λ text. (octets : List ℕ) → S.left source.old ≡ Some octets → IsMade (report.Path router prefix) octets text.items (S.left source.new)) }
    ensures unmade { IfErr result (λ status. (octets : List ℕ) → S.left source.old ≡ Some octets → IsUnmade (report.Path router prefix) octets status (S.left source.new)) }
    ensures cause { IfErr result (λ status. MadeCause (report.Path router prefix) status (S.faults source.old) (S.faults source.new)) }
{
    let feed = match read_feed(rt, alloc, Reader::new(alloc), 0, source) {
        Ok(feed) => feed,
        Err(status) => return Err(status),
    };
    match path_on(alloc, &feed.platform, router, prefix) {
        Ok(line) => Ok(line),
        Err(status) => Err(status),
    }
}

/// The line of the path from a router to its egress, or why there is none.
fn path_on(
    alloc: Global,
    platform: &Platform,
    router: RouterId,
    prefix: Prefix,
) -> Result<Vec<u8>, Status>
    ensures line { IfOk result (λ text. IsPathOn platform.now.seen router prefix text.items) }
    ensures refused { IfErr result (IsRefusedOn platform.now.seen router prefix) }
{
    let path = match walk(alloc, platform, router, prefix) {
        Ok(path) => path,
        Err(WalkError::Refused(refusal)) => return Err(Status::NoPath(refusal)),
        Err(WalkError::NoMemory) => return Err(Status::NoMemory),
    };
    match line_of(alloc, &path) {
        Ok(line) => Ok(line),
        Err(_) => Err(Status::NoMemory),
    }
}

/// The line of some routers, with spaces between them.
fn line_of(alloc: Global, routers: &[RouterId]) -> Result<Vec<u8>, NoMemory>
    ensures { IfOk result (λ line. line.items ≡ path_line routers.now) }
{
    let mut line = Vec::new(alloc);
    if let Some((first, others)) = routers.split_first() {
        put_routers(&mut line, alloc, *first, others)?;
    }
    line.push(b'\n')?;
    Ok(line)
}

/// Puts the texts of routers at the end, with a space before each one but the first.
fn put_routers(
    line: &mut Vec<u8>,
    alloc: Global,
    first: RouterId,
    others: &[RouterId],
) -> Result<(), NoMemory>
    ensures { OnOk result (line.new.items ≡ line.old.items ++ join_with_byte 32 (map address_text (first ∷ others.now))) }
{
    let word = format!(in alloc; "{first}")?;
    line.extend_from_slice(word.as_bytes())?;
    for router in others {
        let word = format!(in alloc; " {router}")?;
        line.extend_from_slice(word.as_bytes())?;
    }
    Ok(())
}

/// The comparison of two feeds, which follow one another.
fn agreement<R: Threads + Sync, S: Source>(
    rt: &R,
    alloc: Global,
    source: &mut S,
) -> Result<Vec<u8>, Status>
    ensures made { IfOk result (λ text. (octets : List ℕ) → S.left source.old ≡ Some octets → IsMade report.Agree octets text.items (S.left source.new)) }
    ensures unmade { IfErr result (λ status. (octets : List ℕ) → S.left source.old ≡ Some octets → IsUnmade report.Agree octets status (S.left source.new)) }
    ensures cause { IfErr result (λ status. MadeCause report.Agree status (S.faults source.old) (S.faults source.new)) }
{
    let first = match read_feed(rt, alloc, Reader::new(alloc), 0, source) {
        Ok(first) => first,
        Err(status) => return Err(status),
    };
    let FeedRun {
        platform,
        reader,
        number,
    } = first;
    match compared(rt, alloc, &platform, reader, number, source) {
        Ok(text) => Ok(text),
        Err(status) => Err(status),
    }
}

/// The comparison of a platform with that of the next feed. `reader` has read `number` records of the feed before it.
fn compared<R: Threads + Sync, S: Source>(
    rt: &R,
    alloc: Global,
    first: &Platform,
    reader: Reader,
    number: u64,
    source: &mut S,
) -> Result<Vec<u8>, Status>
    requires counts { HasCounts reader }
    requires number { number ≡ reader.number }
    ensures made { IfOk result (λ text. (octets : List ℕ) → FollowsFeed octets first.now reader number (S.left source.old) → IsMade report.Agree octets text.items (S.left source.new)) }
    ensures unmade { IfErr result (λ status. (octets : List ℕ) → FollowsFeed octets first.now reader number (S.left source.old) → IsUnmade report.Agree octets status (S.left source.new)) }
    ensures cause { IfErr result (λ status. MadeCause report.Agree status (S.faults source.old) (S.faults source.new)) }
{
    let second = match read_feed(rt, alloc, reader, number, source) {
        Ok(second) => second,
        Err(status) => return Err(status),
    };
    match comparison_of(alloc, first, &second.platform) {
        Ok(text) => Ok(text),
        Err(_) => Err(Status::NoMemory),
    }
}

/// The text of the comparison of two platforms.
fn comparison_of(alloc: Global, first: &Platform, second: &Platform) -> Result<Vec<u8>, NoMemory>
    ensures { IfOk result (λ text. IsAgreementOf first.now.seen second.now.seen text.items) }
{
    let answers = agree(alloc, first, second)?;
    let text = text_of(alloc, &answers)?;
    Ok(text)
}
