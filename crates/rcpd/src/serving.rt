//! The run of the daemon over standard input and output.

ghost use Rattle.std.specs.Prelude.{◌≡◌, ◌↔◌, ◌⊎◌, ◌+◌, ◌-◌, ◌^◌, map};
ghost use Rattle.outside.specs.Told.{Rose};
ghost use Rattle.rcpd_words.specs.Words.{StandFor, StandForNone};
ghost use Rattle.rcpd_words.specs.declared.settings.Settings.{Settings};
ghost use Rattle.rcpd_run.specs.Daemons.{ReachesReport, IsOfDaemon};

use crate::listening::Outside;
use feed_format::Status;
use outside::{Clock, Gate, Net};
use rcpd_run::run_daemon;
use standard_streams::{ReaderSource, WriterSink};
use std::io;
use std::sync::Wait;
use std::thread::Threads;

/// Runs the daemon over the net, the clock and the gate, with standard input as the source of its roster and standard output as the sink of its report. It waits for its
/// peers.
pub fn serve<R, N, C, G>(rt: &R, words: &[&str], outside: &mut Outside<N, C, G>) -> Status
where
    R: AllocGlobal + Input + Print + Threads + Wait + Sync,
    N: Net + Send,
    N::L: Send,
    C: Clock + Sync,
    G: Gate + Sync,
    ensures usage { (result ≡ Status.Usage) ↔ StandForNone (map (λ word. word.now) words.now) }
    ensures never { IsOfDaemon result }
    ensures cause { result ≡ Status.NetFault → Rose (N.faults outside.old.net) (N.faults outside.new.net) }
    ensures handed_out { ReachesReport result → (settings : Settings) → StandFor (map (λ word. word.now) words.now) settings
        → (N.handed_out outside.new.net ≡ N.handed_out outside.old.net + settings.sessions) ⊎ (N.handed_out outside.new.net ≡ 2 ^ 64 - 1) }
{
    let mut source = ReaderSource::new(rt.reader());
    let mut sink = WriterSink::new(io::writer(rt));
    let Outside { net, clock, gate } = outside;
    run_daemon(
        rt,
        rt.alloc(),
        words,
        &mut source,
        &mut sink,
        net,
        &*clock,
        &*gate,
    )
}
