//! A reader and a writer, as standard input and output, as a source and a sink.
//!
//! Neither has a contract on its octets: no proof knows what a file or a terminal gives and takes. Their counts of faults
//! rise exactly where the reader or the writer failed.
#![tactic(auto)]

ghost use Rattle.std.specs.Prelude.{◌≡◌, None, true, OnOk, OnErr};
ghost use Rattle.outside.specs.Told.{Rose};

use outside::{Failed, Sink, Source};
use std::io::{Read, Write};
use std::marker::Model;

/// A reader as a source. After the reader has ended it isn't read again.
#[derive(Drop)]
pub struct ReaderSource<R> {
    reader: R,
    ended: bool,
    faults: u64,
}

impl<R> ReaderSource<R> {
    pub fn new(reader: R) -> ReaderSource<R> {
        ReaderSource {
            reader,
            ended: false,
            faults: 0,
        }
    }
}

impl<R: Read> Source for ReaderSource<R> {
    ghost faults = { λ s. s.faults };

    ghost left = { λ _. None };

    ghost ended = { λ s. s.ended ≡ true };

    fn read(&mut self, buf: &mut [u8]) -> Result<usize, Failed> {
        let before = self.faults;
        if self.ended {
            return Ok(0);
        }
        match self.reader.read(buf) {
            Ok(count) => {
                self.ended = count == 0;
                Ok(count)
            }
            Err(_) => {
                self.faults = before.saturating_add(1);
                Err(Failed)
            }
        }
    }
}

/// A writer as a sink. A write that takes nothing of a piece that isn't empty is a fault. Contracts see the count of
/// faults.
#[derive(Drop)]
pub struct WriterSink<W> {
    writer: W,
    faults: u64,
}

impl<W> Model for WriterSink<W> {
    ghost use Rattle.std.specs.Prelude.{ℕ, ◌<◌, ◌^◌};

    ghost Value = { ℕ };

    ghost view = { λ s. s.faults };

    ghost invariant = { λ s. s.faults < 2 ^ 64 };
}

impl<W> WriterSink<W> {
    pub fn new(writer: W) -> WriterSink<W> {
        WriterSink { writer, faults: 0 }
    }
}

impl<W: Write> WriterSink<W> {
    /// Writes what the writer's buffer holds. A failure counts as a fault.
    pub fn flush(&mut self) -> Result<(), Failed>
        ensures cause { OnErr result (Rose self.old self.new) }
        ensures works { OnOk result (self.new ≡ self.old) }
    {
        match self.writer.flush() {
            Ok(()) => Ok(()),
            Err(_) => {
                self.faults = self.faults.saturating_add(1);
                Err(Failed)
            }
        }
    }
}

impl<W: Write> Sink for WriterSink<W> {
    ghost faults = { λ s. s };

    ghost taken = { λ _. None };

    fn write(&mut self, piece: &[u8]) -> Result<usize, Failed> {
        let faults = self.faults;
        match self.writer.write(piece) {
            Ok(count) if count > 0 || piece.is_empty() => Ok(count),
            _ => {
                self.faults = faults.saturating_add(1);
                Err(Failed)
            }
        }
    }
}
