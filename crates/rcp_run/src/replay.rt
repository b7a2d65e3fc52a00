//! The command `replay`: the output of each record is written before the next one is read.

ghost use Rattle.std.specs.Prelude.{◌≡◌, ◌^◌, ◌<◌, ℕ, List, Some, length, All, IfSome, IfNone, OnOk, OnErr};
ghost use Rattle.std.specs.List.{flat_map, AllByRecursion};
ghost use Rattle.outside.specs.Told.{Rose, NeverFalls, behind};
ghost use Rattle.rcp_base.specs.Feed.{out_octets};
ghost use Rattle.feed_format.specs.Writing.{WritesLess};
ghost use Rattle.feed_run.specs.Frames.{IsFramed};
ghost use Rattle.feed_run.specs.Statuses.{HasCause};
ghost use Rattle.feed_run.specs.Going.{Answers, IsGoing};
ghost use Rattle.rcp_run.specs.Turns.{GoesOn, EndsWith};

use feed_format::{Out, write_out};
use feed_run::{FeedRun, Reader, Status};
use outside::{Failed, Sink, Source};
use std::alloc::Global;
use std::thread::Threads;

/// Reads a feed to its end, and writes its output.
pub fn replay<R: Threads + Sync, S: Source, K: Sink>(
    rt: &R,
    alloc: Global,
    source: &mut S,
    sink: &mut K,
) -> Status
    ensures cause { HasCause result (S.faults source.old) (S.faults source.new) (K.faults sink.old) (K.faults sink.new) }
    ensures answer { (octets : List ℕ) → S.left source.old ≡ Some octets
        → Answers result octets (S.left source.new) (K.taken sink.old) (K.taken sink.new) }
{
    let mut run = match FeedRun::begin(alloc, Reader::new(alloc), 0, source) {
        Ok(run) => run,
        Err(status) => return status,
    };
    loop {
        if let Some(status) = turn(rt, &mut run, source, sink) {
            return status;
        }
    }
}

/// Reads the next record and writes its output. None where the feed goes on.
fn turn<R: Threads + Sync, S: Source, K: Sink>(
    rt: &R,
    run: &mut FeedRun,
    source: &mut S,
    sink: &mut K,
) -> Option<Status>
    requires { IsGoing run.old }
    ensures going { IfNone result (IsGoing run.new) }
    ensures further { IfNone result (run.old.reader.octets < run.new.reader.octets) }
    // What is answered for the rest is then the answer for all.
    ensures goes_on { IfNone result (GoesOn run.old run.new (S.left source.old) (S.left source.new) (K.taken sink.old) (K.taken sink.new)) }
    ensures ends { IfSome result (λ status. EndsWith run.old status (S.left source.old) (S.left source.new) (K.taken sink.old) (K.taken sink.new)) }
    ensures cause { IfSome result (λ status.
        HasCause status (S.faults source.old) (S.faults source.new) (K.faults sink.old) (K.faults sink.new)) }
    ensures source_never_falls { NeverFalls (S.faults source.old) (S.faults source.new) }
    ensures sink_never_falls { NeverFalls (K.faults sink.old) (K.faults sink.new) }
{
    match run.next(rt, false, source) {
        Ok(None) => Some(Status::Done),
        Ok(Some(outs)) => match write_outs(&outs, sink) {
            Ok(()) => None,
            Err(_) => Some(Status::Write),
        },
        Err(status) => Some(status),
    }
}

/// Writes these records.
fn write_outs<K: Sink>(outs: &[Out], sink: &mut K) -> Result<(), Failed>
    requires { All (λ out. length out.body < 2 ^ 32) outs.now }
    ensures ok { OnOk result (K.taken sink.new ≡ behind (K.taken sink.old) (flat_map out_octets outs.now)) }
    ensures framed { OnOk result (AllByRecursion IsFramed outs.now) }
    ensures less { OnErr result (WritesLess (flat_map out_octets outs.now) (K.taken sink.old) (K.taken sink.new)) }
    ensures cause { OnErr result (Rose (K.faults sink.old) (K.faults sink.new)) }
    ensures never_falls { NeverFalls (K.faults sink.old) (K.faults sink.new) }
{
    for out in outs {
        // A connection is known to have room in its frame once its number is read.
        prove!(out.connection <= u32::MAX);
        write_out(out, sink)?;
    }
    Ok(())
}
