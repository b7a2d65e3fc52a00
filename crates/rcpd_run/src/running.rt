//! The run, from its words to its report.

ghost use Rattle.std.specs.Prelude.{◌≡◌, ◌≢◌, ◌↔◌, ◌⊎◌, ℕ, List, [], Some, Ok, Err, map, IfSome, IfOk, IfErr, OnOk};
ghost use Rattle.outside.specs.Told.{Rose};
ghost use Rattle.rcp_base.specs.Roster.{RosterOf};
ghost use Rattle.link_acceptor.specs.Accepting.{RoseBy};
ghost use Rattle.roster_source.specs.Reading.{roster_in};
ghost use Rattle.rcpd_words.specs.Words.{StandFor, StandForNone};
ghost use Rattle.rcpd_words.specs.declared.settings.Settings.{Settings};
ghost use Rattle.rcpd_run.specs.Daemons.{IsOfDaemon, IsStatusFor, HaveServed, report_on, WroteReport, ReachesReport, HasCause};
ghost use Rattle.daemon_jobs.specs.declared.session.Served.{Served};

use crate::serving::serve;
use feed_format::Status;
use outbox::Wired;
use outside::{Clock, Gate, Net, Sink, Source, write_all};
use rcpd_words::Settings;
use roster_source::read_roster;
use std::alloc::Global;
use std::sync::Wait;
use std::thread::Threads;

/// Reads a roster from the source to its end, serves as many BGP sessions as the words ask for, and writes the report of their ends to the sink. It waits for its
/// peers.
///
/// | Status | When |
/// |---|---|
/// | `Done` | the sessions have ended, and the report is written |
/// | `Usage` | the words stand for no settings; nothing was read or written |
/// | `Roster` | the roster has its first fault at this line; `TooMany` at line 1 where it has more than 65,536 octets |
/// | `Read`, `Write` | the source or the sink failed |
/// | `NetFault` | the net failed |
/// | `NoMemory` | there was no memory for the roster, for the report or for a job, or the net handed out fewer links than sessions are wanted |
///
/// Nothing but the report is written, and only once all sessions have ended.
pub fn run_daemon<R, S, K, N, C, G>(
    rt: &R,
    alloc: Global,
    words: &[&str],
    source: &mut S,
    sink: &mut K,
    net: &mut N,
    clock: &C,
    gate: &G,
) -> Status
where
    R: Threads + Wait + Sync,
    S: Source,
    K: Sink,
    N: Net + Send,
    N::L: Send,
    C: Clock + Sync,
    G: Gate + Sync,
    // Usage comes exactly where the words stand for no settings. Nothing was read or written then.
    ensures usage { (result ≡ Status.Usage) ↔ StandForNone (map (λ word. word.now) words.now) }
    ensures nothing_read { result ≡ Status.Usage → S.left source.new ≡ S.left source.old }

    // Feed and NoPath never come. A fault of the source, of the sink or of the net is answered only where there was one.
    ensures never { IsOfDaemon result }
    ensures cause { HasCause result (S.faults source.old) (S.faults source.new) (K.faults sink.old) (K.faults sink.new) (N.faults net.old) (N.faults net.new) }

    // Roster comes exactly at the first fault of the source's octets. Where the daemon served, they are those of a roster, and were read to their end.
    ensures roster { result ≢ Status.Usage → (octets : List ℕ) → S.left source.old ≡ Some octets → IsStatusFor octets result }
    ensures through { ReachesReport result → IfSome (S.left source.new) (λ octets. octets ≡ []) }

    // On Done and on Write as many links were handed out as sessions were wanted, or the count stands at its last value. They were served, and the report
    // has their lines.
    ensures handed_out { ReachesReport result → (settings : Settings) → StandFor (map (λ word. word.now) words.now) settings
        → RoseBy settings.sessions (N.handed_out net.old) (N.handed_out net.new) }
    ensures served { ReachesReport result → (settings : Settings) → StandFor (map (λ word. word.now) words.now) settings
        → (roster : RosterOf) × (sessions : List (Served N.L)) × ((octets : List ℕ) → S.left source.old ≡ Some octets → roster_in octets ≡ Ok roster)
        × HaveServed ⟦<N::L as Wired>⟧.wire roster (C.can_give clock.now) settings.sessions (N.handed_back net.old) (N.handed_back net.new) sessions
        × WroteReport result (report_on roster.members sessions) (K.taken sink.old) (K.taken sink.new) }
    ensures silent { (ReachesReport result → ⊥) → K.taken sink.new ≡ K.taken sink.old }

    // With the words of settings, a roster without a fault, and no fault of source, sink or net, the status is Done or NoMemory.
    ensures complete { (settings : Settings) → StandFor (map (λ word. word.now) words.now) settings
        → (octets : List ℕ) (roster : RosterOf) → S.left source.old ≡ Some octets → roster_in octets ≡ Ok roster
        → (Rose (S.faults source.old) (S.faults source.new) → ⊥) → (Rose (K.faults sink.old) (K.faults sink.new) → ⊥) → (Rose (N.faults net.old) (N.faults net.new) → ⊥)
        → (result ≡ Status.Done) ⊎ (result ≡ Status.NoMemory) }
{
    let Some(settings) = Settings::of_words(words) else {
        return Status::Usage;
    };
    let roster = match read_roster(alloc, source) {
        Ok(roster) => roster,
        Err(status) => return status,
    };
    let report = match serve(rt, alloc, &roster, settings.sessions, net, clock, gate) {
        Ok(report) => report,
        Err(status) => return status,
    };
    match write_all(sink, &report) {
        Ok(()) => Status::Done,
        Err(_) => Status::Write,
    }
}
