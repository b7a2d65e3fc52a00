//! Writing the records of a text.

ghost use Rattle.std.specs.Prelude.{◌≡◌, ◌<◌, ◌≤◌, ◌^◌, ◌-◌, ◌+◌, ◌==◌, ◌++◌, length, take, Ok, Err, IfOk, OnOk, OnErr, IfSome};
ghost use Rattle.outside.specs.Told.{Rose, NeverFalls, behind, in_front};
ghost use Rattle.feed_text.specs.Windows.{Held, SameOctets, IsEmptyRest};
ghost use Rattle.feed_words.specs.Texts.{closed, line_gives};
ghost use Rattle.feed_text.specs.Lines.{LineInFront, Encodes, TakesLine};
ghost use Rattle.feed_text.specs.Shown.{WritesText};

use crate::checker::first_end;
use crate::window::Window;
use feed_words::{Encoder, LineStop, MOST_LINE, TextFault};
use outside::{Failed, Sink, Source, write_all};
use std::alloc::Global;
use thiserror::Error;

/// Why the records of a text were not all written.
#[derive(Clone, Copy, Debug, PartialEq, Eq, Error)]
pub enum WriteFault {
    /// The first faulty line.
    #[error("{0}")]
    Text(TextFault),
    /// The source failed.
    #[error("read fault")]
    Read,
    /// The sink failed.
    #[error("write fault")]
    Write,
    /// No memory was found.
    #[error("no memory")]
    NoMemory,
    /// The text has 2^64 - 1 lines or more.
    #[error("too long")]
    TooLong,
}

/// The octets that are held at most: a line, and as many as a read gives.
const WINDOW: usize = MOST_LINE + (1 << 16);

/// The length of the line in front, where its end is held. None where the input has ended, or the line is too long.
fn line_in_front<S: Source>(window: &mut Window, source: &mut S) -> Result<Option<usize>, Failed>
    requires { 2 ^ 20 < window.old.size }
    ensures same { SameOctets window.old (S.left source.old) window.new (S.left source.new) }
    ensures size { window.new.size ≡ window.old.size }
    ensures found { IfOk result (LineInFront window.new.octets (S.left source.new)) }
    ensures fits { IfOk result (λ found. IfSome found (λ end. end + 1 < 2 ^ 64)) }
    ensures cause { OnErr result (Rose (S.faults source.old) (S.faults source.new)) }
    ensures never_falls { NeverFalls (S.faults source.old) (S.faults source.new) }
{
    loop {
        let found = first_end(window.held());
        if found.is_some() || window.len() > MOST_LINE || !window.fill(source)? {
            return Ok(found);
        }
    }
}

/// Writes the octets of one line after another.
#[derive(Drop)]
struct Writer {
    window: Window,
    encoder: Encoder,
    piece: Vec<u8>,
}

impl Writer {
    /// Writes what the next line completes; its number is from 1. False after the last.
    fn turn<S: Source, K: Sink>(
        &mut self,
        number: u64,
        source: &mut S,
        sink: &mut K,
    ) -> Result<bool, WriteFault>
        requires { 2 ^ 20 < self.old.window.size }
        ensures takes { TakesLine number self.old.encoder self.new.encoder (K.taken sink.old) (K.taken sink.new)
            (in_front self.old.window.octets (S.left source.old)) (in_front self.new.window.octets (S.left source.new)) result }
        ensures size { self.new.window.size ≡ self.old.window.size }
        ensures long { result ≡ Err WriteFault.TooLong → ⊥ }
        ensures read { result ≡ Err WriteFault.Read → Rose (S.faults source.old) (S.faults source.new) }
        ensures write { result ≡ Err WriteFault.Write → Rose (K.faults sink.old) (K.faults sink.new) }
        ensures reads { NeverFalls (S.faults source.old) (S.faults source.new) }
        ensures writes { NeverFalls (K.faults sink.old) (K.faults sink.new) }
    {
        match line_in_front(&mut self.window, source) {
            Err(_) => Err(WriteFault::Read),
            Ok(Some(end)) => {
                let piece = &mut self.piece;
                if let Err(fault) = encode(&self.window, end, number, &mut self.encoder, piece) {
                    return Err(fault);
                }
                put(&self.piece, sink)?;
                self.window.drop_front(end + 1);
                Ok(true)
            }
            Ok(None) => {
                let end = self.window.len();
                let piece = &mut self.piece;
                if let Err(fault) = encode(&self.window, end, number, &mut self.encoder, piece) {
                    return Err(fault);
                }
                finish(&mut self.encoder, &mut self.piece)?;
                put(&self.piece, sink)?;
                Ok(false)
            }
        }
    }
}

/// Writes all these octets.
fn put<K: Sink>(piece: &[u8], sink: &mut K) -> Result<(), WriteFault>
    ensures ok { OnOk result (K.taken sink.new ≡ behind (K.taken sink.old) piece.now) }
    ensures err { OnErr result (result ≡ Err WriteFault.Write) }
    ensures cause { OnErr result (Rose (K.faults sink.old) (K.faults sink.new)) }
    ensures never_falls { NeverFalls (K.faults sink.old) (K.faults sink.new) }
{
    match write_all(sink, piece) {
        Ok(()) => Ok(()),
        Err(_) => Err(WriteFault::Write),
    }
}

/// Reads the first octets as a line, which has this number.
fn encode(
    window: &Window,
    end: usize,
    number: u64,
    encoder: &mut Encoder,
    piece: &mut Vec<u8>,
) -> Result<(), WriteFault>
    requires { end ≤ length window.now.octets }
    ensures { Encodes number result (line_gives encoder.old (take end window.now.octets)) (encoder.new, piece.new.items) }
{
    piece.clear();
    let (line, _) = window.held().split_at(end);
    match encoder.line(line, piece) {
        Ok(()) => Ok(()),
        Err(LineStop::NoMemory) => Err(WriteFault::NoMemory),
        Err(LineStop::Fault(fault)) => Err(WriteFault::Text(TextFault {
            line: number,
            word: fault.word,
            why: fault.why,
        })),
    }
}

/// Ends the roster that is open.
fn finish(encoder: &mut Encoder, piece: &mut Vec<u8>) -> Result<(), WriteFault>
    ensures gives { OnOk result (piece.new.items ≡ piece.old.items ++ closed encoder.old) }
    ensures err { OnErr result (result ≡ Err WriteFault.NoMemory) }
{
    match encoder.end(piece) {
        Ok(()) => Ok(()),
        Err(_) => Err(WriteFault::NoMemory),
    }
}

/// Reads a text line by line, and writes the octets that it stands for: those of all lines, or of the lines before the first
/// faulty one.
///
/// It keeps one line, and the text of a roster whose lines are being read.
pub fn write<S: Source, K: Sink>(
    alloc: Global,
    source: &mut S,
    sink: &mut K,
) -> Result<(), WriteFault>
    ensures text { IfSome (S.left source.old) (λ text. WritesText text (K.taken sink.old) (K.taken sink.new) result) }
    ensures read { result ≡ Err WriteFault.Read → Rose (S.faults source.old) (S.faults source.new) }
    ensures write { result ≡ Err WriteFault.Write → Rose (K.faults sink.old) (K.faults sink.new) }
    ensures reads { NeverFalls (S.faults source.old) (S.faults source.new) }
    ensures writes { NeverFalls (K.faults sink.old) (K.faults sink.new) }
{
    let window = match Window::new(alloc, WINDOW) {
        Ok(window) => window,
        Err(_) => return Err(WriteFault::NoMemory),
    };
    let mut writer = Writer {
        window,
        encoder: Encoder::new(alloc),
        piece: Vec::new(alloc),
    };
    for before in 0..u64::MAX {
        match writer.turn(before + 1, source, sink) {
            Ok(true) => (),
            Ok(false) => return Ok(()),
            Err(fault) => return Err(fault),
        }
    }
    Err(WriteFault::TooLong)
}
