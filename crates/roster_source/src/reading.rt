//! Reads the text of a roster to its end.

ghost use Rattle.std.specs.Prelude.{◌≡◌, ◌≤◌, ℕ, List, [], Some, Err, IfOk, OnOk, IfErr, IfSome, length};
ghost use Rattle.outside.specs.Told.{Rose, NeverFalls, in_front};
ghost use Rattle.feed_format.specs.declared.status.Status.TheVariants as status;
ghost use Rattle.roster_source.specs.Reading.{MOST, IsReadOf, IsRefusal, AddsPiece, IsNoText};

use feed_format::Status;
use outside::Source;
use rcp_base::RosterWhy;
use roster::{Roster, RosterRefusal, read};
use std::alloc::Global;

/// The most octets that the text of a roster has.
const MOST_TEXT: usize = 65536;

/// How many octets are read at once.
const PIECE: usize = 4096;

/// Reads a roster from a source to its end.
///
/// The errors: `Roster` with `number` 1 at the first faulty line, which is `TooMany` at line 1 exactly where the text has more than 65,536 octets; `Read` only
/// where the source failed; `NoMemory`. After `Roster` for a long text the source isn't read to its end.
pub fn read_roster<S: Source>(alloc: Global, source: &mut S) -> Result<Roster, Status>
    ensures exact { IfSome (S.left source.old) (λ octets. IsReadOf octets result) }
    ensures end { OnOk result (IfSome (S.left source.new) (λ octets. octets ≡ [])) }
    ensures refused { IfErr result IsRefusal }
    ensures cause { result ≡ Err status.Read → Rose (S.faults source.old) (S.faults source.new) }
    ensures never_falls { NeverFalls (S.faults source.old) (S.faults source.new) }
{
    let text = match text_of(alloc, source) {
        Ok(text) => text,
        Err(status) => return Err(status),
    };
    match read(alloc, &text) {
        Ok(roster) => Ok(roster),
        Err(RosterRefusal::Fault { line, why }) => Err(Status::Roster {
            number: 1,
            line,
            why,
        }),
        Err(RosterRefusal::NoMemory) => Err(Status::NoMemory),
    }
}

/// The octets of a source to its end, where they aren't too many.
fn text_of<S: Source>(alloc: Global, source: &mut S) -> Result<Vec<u8>, Status>
    ensures short { IfOk result (λ text. length text.items ≤ MOST) }
    ensures text { IfOk result (λ text. IfSome (S.left source.old) (λ octets. octets ≡ text.items)) }
    ensures end { OnOk result (IfSome (S.left source.new) (λ octets. octets ≡ [])) }
    ensures none { IfErr result (IsNoText (S.left source.old)) }
    ensures cause { result ≡ Err status.Read → Rose (S.faults source.old) (S.faults source.new) }
    ensures never_falls { NeverFalls (S.faults source.old) (S.faults source.new) }
{
    let mut text = Vec::new(alloc);
    while text.len() <= MOST_TEXT {
        match add_piece(source, &mut text) {
            Ok(0) => return Ok(text),
            Ok(_) => {}
            Err(status) => return Err(status),
        }
    }
    Err(Status::Roster {
        number: 1,
        line: 1,
        why: RosterWhy::TooMany,
    })
}

/// Puts the next octets of a source after those of the text: how many there were, 0 at the end of the source. `Read` and `NoMemory` alone are the errors.
fn add_piece<S: Source>(source: &mut S, text: &mut Vec<u8>) -> Result<usize, Status>
    ensures piece { IfOk result (λ count. AddsPiece count text.old.items text.new.items (S.left source.old) (S.left source.new)) }
    ensures none { IfErr result (IsNoText (Some [])) }
    ensures cause { result ≡ Err status.Read → Rose (S.faults source.old) (S.faults source.new) }
    ensures never_falls { NeverFalls (S.faults source.old) (S.faults source.new) }
{
    let mut piece = [0; PIECE];
    match source.read(&mut piece) {
        Ok(count) => {
            let (octets, _) = piece.split_at(count);
            match text.extend_from_slice(octets) {
                Ok(()) => Ok(count),
                Err(_) => Err(Status::NoMemory),
            }
        }
        Err(_) => Err(Status::Read),
    }
}
