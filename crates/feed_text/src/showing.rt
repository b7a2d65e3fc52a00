//! Showing records as lines.

ghost use Rattle.std.specs.Prelude.{◌≡◌, ◌<◌, ◌≤◌, ◌^◌, ◌-◌, ◌+◌, [], length, take, Ok, Err, Some, None, IfOk, OnOk, OnErr, IfSome};
ghost use Rattle.outside.specs.Told.{Rose, NeverFalls};
ghost use Rattle.feed_words.specs.Texts.{reading_of, whole};
ghost use Rattle.feed_words.specs.Joining.{EndsLine};
ghost use Rattle.feed_text.specs.Windows.{Held, SameOctets, IsEmptyRest};
ghost use Rattle.feed_text.specs.Shown.{ShowsAll};
ghost use Rattle.feed_text.specs.Turns.{Spells, Turns};

use crate::comments::Comments;
use crate::printer::Printer;
use crate::window::Window;
use feed_words::texts_join;
use outside::{Failed, Sink, Source, write_all};
use rcp_base::NoMemory;
use std::alloc::Global;
use thiserror::Error;

/// Why a stream was not shown to its end.
#[derive(Clone, Copy, Debug, PartialEq, Eq, Error)]
pub enum ShowFault {
    /// The source failed.
    #[error("read fault")]
    Read,
    /// The sink failed.
    #[error("write fault")]
    Write,
    /// No memory was found.
    #[error("no memory")]
    NoMemory,
    /// The input has 2^64 - 1 pieces or more.
    #[error("too long")]
    TooLong,
}

/// The octets of a record's header.
const HEADER: usize = 9;

/// The most octets that a body has.
const MOST_BODY: usize = 65536;

/// The octets of a line outside of records.
const LINE_OCTETS: usize = 32;

/// The octets that are held at most: a record, and as many as a read gives.
const WINDOW: usize = 1 << 18;

/// How many octets of the front a line is of: a whole record, or up to 32 octets from the first place on where no record
/// is. 0 at the end of the input.
fn next_piece<S: Source>(
    window: &mut Window,
    source: &mut S,
    loose: &mut bool,
) -> Result<usize, Failed>
    requires { HEADER + MOST_BODY ≤ window.old.size }
    ensures same { SameOctets window.old (S.left source.old) window.new (S.left source.new) }
    ensures size { window.new.size ≡ window.old.size }
    ensures within { IfOk result (λ count. (count ≤ length window.new.octets) × (count ≤ 65545)) }
    ensures end { result ≡ Ok 0 → (window.new.octets ≡ []) × IsEmptyRest (S.left source.new) }
    ensures cause { OnErr result (Rose (S.faults source.old) (S.faults source.new)) }
    ensures never_falls { NeverFalls (S.faults source.old) (S.faults source.new) }
{
    if !*loose {
        if let Some(count) = record_in_front(window, source)? {
            return Ok(count);
        }
        *loose = true;
    }
    window.fill_to(source, LINE_OCTETS)?;
    Ok(window.len().min(LINE_OCTETS))
}

/// How many octets the record in front has. None where no whole record is there.
fn record_in_front<S: Source>(window: &mut Window, source: &mut S) -> Result<Option<usize>, Failed>
    requires { HEADER + MOST_BODY ≤ window.old.size }
    ensures same { SameOctets window.old (S.left source.old) window.new (S.left source.new) }
    ensures size { window.new.size ≡ window.old.size }
    ensures within { IfOk result (λ found. IfSome found (λ count. (0 < count) × (count ≤ length window.new.octets) × (count ≤ 65545))) }
    ensures cause { OnErr result (Rose (S.faults source.old) (S.faults source.new)) }
    ensures never_falls { NeverFalls (S.faults source.old) (S.faults source.new) }
{
    if !window.fill_to(source, HEADER)? {
        return Ok(None);
    }
    let body = body_length(window.held());
    if body > MOST_BODY {
        return Ok(None);
    }
    if !window.fill_to(source, HEADER + body)? {
        return Ok(None);
    }
    Ok(Some(HEADER + body))
}

/// The length that a header says.
fn body_length(octets: &[u8]) -> usize
    requires { 9 ≤ length octets.now }
{
    u32::from_be_bytes([octets[5], octets[6], octets[7], octets[8]]) as usize
}

/// Shows the pieces of a stream one after another.
#[derive(Drop)]
struct Shower {
    window: Window,
    printer: Printer,
    /// No record is in front any more.
    loose: bool,
}

impl Shower {
    /// Shows the next piece. False at the end of the input.
    fn turn<S: Source, K: Sink>(&mut self, source: &mut S, sink: &mut K) -> Result<bool, ShowFault>
        requires { 65545 ≤ self.old.window.size }
        ensures turns { Turns self.old.window (S.left source.old) (K.taken sink.old) self.new.window (S.left source.new) (K.taken sink.new) result }
        ensures size { self.new.window.size ≡ self.old.window.size }
        ensures long { result ≡ Err ShowFault.TooLong → ⊥ }
        ensures read { result ≡ Err ShowFault.Read → Rose (S.faults source.old) (S.faults source.new) }
        ensures write { result ≡ Err ShowFault.Write → Rose (K.faults sink.old) (K.faults sink.new) }
        ensures reads { NeverFalls (S.faults source.old) (S.faults source.new) }
        ensures writes { NeverFalls (K.faults sink.old) (K.faults sink.new) }
    {
        let count = match next_piece(&mut self.window, source, &mut self.loose) {
            Ok(0) => return Ok(false),
            Ok(count) => count,
            Err(_) => return Err(ShowFault::Read),
        };
        let Ok(()) = print(&self.window, count, &mut self.printer, self.loose) else {
            return Err(ShowFault::NoMemory);
        };
        match write_all(sink, &self.printer.text) {
            Ok(()) => {
                self.window.drop_front(count);
                Ok(true)
            }
            Err(_) => Err(ShowFault::Write),
        }
    }
}

/// Prints the octets in front.
fn print(window: &Window, count: usize, printer: &mut Printer, loose: bool) -> Result<(), NoMemory>
    requires within { count ≤ length window.now.octets }
    requires few { count ≤ 65545 }
    ensures { OnOk result (Spells printer.new.text.items (take count window.now.octets)) }
{
    let (piece, _) = window.held().split_at(count);
    if loose {
        printer.octets(piece)
    } else {
        printer.record(piece)
    }
}

/// Shows a feed or an output, record by record, and writes the text.
///
/// The text stands for exactly the octets of the source, whatever they are: `write` gives them again.
pub fn show<S: Source, K: Sink>(
    alloc: Global,
    comments: Comments,
    source: &mut S,
    sink: &mut K,
) -> Result<(), ShowFault>
    ensures text { OnOk result (IfSome (S.left source.old) (λ octets. ShowsAll octets (K.taken sink.old) (K.taken sink.new))) }
    ensures long { result ≡ Err ShowFault.TooLong → IfSome (S.left source.old) (λ octets. 2 ^ 64 - 1 ≤ length octets) }
    ensures read { result ≡ Err ShowFault.Read → Rose (S.faults source.old) (S.faults source.new) }
    ensures write { result ≡ Err ShowFault.Write → Rose (K.faults sink.old) (K.faults sink.new) }
    ensures reads { NeverFalls (S.faults source.old) (S.faults source.new) }
    ensures writes { NeverFalls (K.faults sink.old) (K.faults sink.new) }
{
    texts_join();
    let window = match Window::new(alloc, WINDOW) {
        Ok(window) => window,
        Err(_) => return Err(ShowFault::NoMemory),
    };
    let mut shower = Shower {
        window,
        printer: Printer::new(alloc, comments),
        loose: false,
    };
    for _ in 0..u64::MAX {
        match shower.turn(source, sink) {
            Ok(true) => (),
            Ok(false) => return Ok(()),
            Err(fault) => return Err(fault),
        }
    }
    Err(ShowFault::TooLong)
}
