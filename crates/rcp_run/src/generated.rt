//! The commands on the generated feed of a number, which read nothing.

ghost use Rattle.std.specs.Prelude.{◌≡◌, ◌++◌, ◌<◌, ◌^◌, ℕ, List, [], Some, IfOk, OnOk};
ghost use Rattle.std.specs.List.{flat_map};
ghost use Rattle.feed_make.specs.Feeds.{feed_octets};
ghost use Rattle.feed_meaning.specs.WholeFeeds.{feed_meaning};
ghost use Rattle.feed_run.specs.Going.{IsGoing};
ghost use Rattle.feed_run.specs.Whole.{IsReached};
ghost use Rattle.rcp_base.specs.Feed.{FeedRecord, FeedState};
ghost use Rattle.rcp_base.specs.Roster.{RosterOf};
ghost use Rattle.rcp_run.specs.Generated.{WritesCause, WroteOctets, WroteText};
ghost use Rattle.rcp_run.specs.Trials.{counts_in, counts_line, summary_line, summary_lines, summaries_of, trial_text};
ghost use Rattle.feed_run.specs.NextFeeds.{meaning_after};

use feed_format::Out;
use feed_make::{MakeRefusal, make};
use feed_run::{FeedRun, Reader, Status};
use outside::{MemSink, MemSource, Sink, Source, write_all};
use rcp_base::NoMemory;
use std::alloc::Global;
use std::thread::Threads;

/// Writes the generated feed of a number.
pub fn put_feed<K: Sink>(alloc: Global, number: u32, sink: &mut K) -> Status
    ensures wrote { WroteOctets (feed_octets number) result (K.taken sink.old) (K.taken sink.new) }
    ensures cause { WritesCause result (K.faults sink.old) (K.faults sink.new) }
{
    match make(alloc, number, sink) {
        Ok(()) => Status::Done,
        Err(MakeRefusal::Write) => Status::Write,
        Err(MakeRefusal::NoMemory) => Status::NoMemory,
    }
}

/// Runs the generated feed of a number, and then writes a line for each summary that is put out for it.
pub fn put_trial<R: Threads + Sync, K: Sink>(
    rt: &R,
    alloc: Global,
    number: u32,
    threads: bool,
    sink: &mut K,
) -> Status
    ensures wrote { WroteText (trial_text number) result (K.taken sink.old) (K.taken sink.new) }
    ensures cause { WritesCause result (K.faults sink.old) (K.faults sink.new) }
{
    let text = match trial_text(rt, alloc, number, threads) {
        Ok(text) => text,
        Err(_) => return Status::NoMemory,
    };
    match write_all(sink, &text) {
        Ok(()) => Status::Done,
        Err(_) => Status::Write,
    }
}

/// The lines of the summaries that are put out for the generated feed of a number.
fn trial_text<R: Threads + Sync>(
    rt: &R,
    alloc: Global,
    number: u32,
    threads: bool,
) -> Result<Vec<u8>, NoMemory>
    ensures { IfOk result (λ text. text.items ≡ trial_text number) }
{
    let feed = feed_of(alloc, number)?;
    let mut source = MemSource::new(feed, Vec::new(alloc));
    summaries(rt, alloc, threads, &mut source)
}

/// The octets of the generated feed of a number.
fn feed_of(alloc: Global, number: u32) -> Result<Vec<u8>, NoMemory>
    ensures { IfOk result (λ feed. feed.items ≡ feed_octets number) }
{
    let mut sink = MemSink::new(alloc, Vec::new(alloc));
    match make(alloc, number, &mut sink) {
        Ok(()) => Ok(Vec::from_slice(alloc, sink.octets())?),
        Err(_) => Err(NoMemory),
    }
}

/// The lines of the summaries that are put out for a feed.
///
/// A generated feed has no fault, so only want of memory cuts it short.
fn summaries<R: Threads + Sync, S: Source>(
    rt: &R,
    alloc: Global,
    threads: bool,
    source: &mut S,
) -> Result<Vec<u8>, NoMemory>
    ensures { IfOk result (λ text. (octets : List ℕ) → S.left source.old ≡ Some octets → text.items ≡ summaries_of (feed_meaning octets)) }
{
    let mut run = match FeedRun::begin(alloc, Reader::new(alloc), 0, source) {
        Ok(run) => run,
        Err(_) => return Err(NoMemory),
    };
    let mut text = Vec::new(alloc);
    match put_rest(rt, alloc, threads, &mut run, source, &mut text) {
        Ok(()) => Ok(text),
        Err(_) => Err(NoMemory),
    }
}

/// Reads the records of a feed that are left, and puts the lines of the summaries at the end.
fn put_rest<R: Threads + Sync, S: Source>(
    rt: &R,
    alloc: Global,
    threads: bool,
    run: &mut FeedRun,
    source: &mut S,
    text: &mut Vec<u8>,
) -> Result<(), NoMemory>
    requires { IsGoing run.old }
    ensures { OnOk result ((earlier : FeedState) (roster : RosterOf) (items : List FeedRecord) (octets : List ℕ)
        → IsReached earlier run.old roster items (Some octets) (S.left source.old) → text.old.items ≡ summary_lines roster items
        → text.new.items ≡ summaries_of (meaning_after earlier octets)) }
{
    'records: loop {
        match run.next(rt, threads, source) {
            Ok(Some(outs)) => put_summaries(text, alloc, &outs)?,
            Ok(None) => return Ok(()),
            Err(_) => return Err(NoMemory),
        }
    }
}

/// Puts the lines of the summaries among some records at the end.
fn put_summaries(text: &mut Vec<u8>, alloc: Global, outs: &[Out]) -> Result<(), NoMemory>
    ensures { OnOk result (text.new.items ≡ text.old.items ++ flat_map summary_line outs.now) }
{
    for out in outs {
        put_summary(text, alloc, out)?;
    }
    Ok(())
}

/// Puts the line of a record at the end, where it is a summary.
fn put_summary(text: &mut Vec<u8>, alloc: Global, out: &Out) -> Result<(), NoMemory>
    ensures { OnOk result (text.new.items ≡ text.old.items ++ summary_line out.now) }
{
    if out.kind != b'S' {
        return Ok(());
    }
    match counts_in(&out.body) {
        Some((routers, (prefixes, updates))) => put_counts(text, alloc, routers, prefixes, updates),
        None => Ok(()),
    }
}

/// Puts the line of these counts at the end.
fn put_counts(
    text: &mut Vec<u8>,
    alloc: Global,
    routers: u64,
    prefixes: u64,
    updates: u64,
) -> Result<(), NoMemory>
    ensures { OnOk result (text.new.items ≡ text.old.items ++ counts_line (Some (routers, (prefixes, updates)))) }
{
    let line = format!(in alloc; "routers {routers} prefixes {prefixes} updates {updates}\n")?;
    text.extend_from_slice(line.as_bytes())?;
    Ok(())
}

/// The counts in the body of a summary: connected routers, announced prefixes, and UPDATEs so far.
fn counts_in(body: &[u8]) -> Option<(u64, (u64, u64))>
    ensures { result ≡ counts_in body.now }
{
    let (routers, rest) = body.split_first_chunk::<8>()?;
    let (prefixes, rest) = rest.split_first_chunk::<8>()?;
    let (updates, _) = rest.split_first_chunk::<8>()?;
    Some((
        u64::from_be_bytes(*routers),
        (u64::from_be_bytes(*prefixes), u64::from_be_bytes(*updates)),
    ))
}
