//! What a line says: its words, and the values that they spell.

ghost use Rattle.std.specs.Prelude.{◌≡◌, ℕ, List, [], ◌∷◌, Option};
ghost use Rattle.rcp_base.specs.Roster.{number_within, as_value, hold_value, name_value, line_of, line_of_words};
ghost use Rattle.rcp_base.specs.Text.{number_of, address_of};
ghost use Rattle.roster.specs.Lines.{Says};

use crate::words::{four_words, has_empty_word, three_words, two_words};
use rcp_base::{Addr, RosterWhy, RouterId, read_addr, read_number};

/// The number that stands for AS numbers of four octets in messages of two (RFC 6793 section 9).
const AS_TRANS: u16 = 23456;

/// The most shards.
const MOST_SHARDS: u16 = 64;

/// The least hold time but 0, in seconds (RFC 4271 section 4.2).
const LEAST_HOLD: u16 = 3;

/// What a line says.
#[derive(Clone, Copy, Debug, PartialEq, Eq)]
pub enum Line {
    As(u16),
    Id(Addr),
    Shards(u16),
    Hold(u16),
    Area(Addr),
    Router(RouterId, Addr),
    Link(RouterId, RouterId, u16),
}

/// What a line says that isn't skipped, or `Word` or `Number`.
pub fn read_line(text: &[u8]) -> Result<Line, RosterWhy>
    ensures { Says (line_of text.now) result }
{
    if has_empty_word(text) {
        return Err(RosterWhy::Word);
    }
    if let Some((word, a)) = two_words(text) {
        return setting(word, a);
    }
    if let Some((word, a, b)) = three_words(text) {
        return router(word, a, b);
    }
    if let Some((word, a, b, c)) = four_words(text) {
        return link(word, a, b, c);
    }
    Err(RosterWhy::Word)
}

fn setting(word: &[u8], text: &[u8]) -> Result<Line, RosterWhy>
    ensures { Says (line_of_words (word.now ∷ text.now ∷ [])) result }
{
    match word {
        b"as" => as_value(text).map(Line::As).ok_or(RosterWhy::Number),
        b"id" => read_addr(text).map(Line::Id).ok_or(RosterWhy::Number),
        b"shards" => shards_value(text)
            .map(Line::Shards)
            .ok_or(RosterWhy::Number),
        b"hold" => hold_value(text).map(Line::Hold).ok_or(RosterWhy::Number),
        b"area" => read_addr(text).map(Line::Area).ok_or(RosterWhy::Number),
        _ => Err(RosterWhy::Word),
    }
}

fn router(word: &[u8], router: &[u8], id: &[u8]) -> Result<Line, RosterWhy>
    ensures { Says (line_of_words (word.now ∷ router.now ∷ id.now ∷ [])) result }
{
    if word != b"router".as_slice() {
        return Err(RosterWhy::Word);
    }
    match (name_value(router), name_value(id)) {
        (Some(router), Some(id)) => Ok(Line::Router(RouterId(router.0), id)),
        _ => Err(RosterWhy::Number),
    }
}

fn link(word: &[u8], from: &[u8], to: &[u8], cost: &[u8]) -> Result<Line, RosterWhy>
    ensures { Says (line_of_words (word.now ∷ from.now ∷ to.now ∷ cost.now ∷ [])) result }
{
    if word != b"link".as_slice() {
        return Err(RosterWhy::Word);
    }
    match (
        read_addr(from),
        read_addr(to),
        number_within(1, u16::MAX, cost),
    ) {
        (Some(from), Some(to), Some(cost)) => {
            Ok(Line::Link(RouterId(from.0), RouterId(to.0), cost))
        }
        _ => Err(RosterWhy::Number),
    }
}

// ---- values

fn as_value(text: &[u8]) -> Option<u16>
    ensures { result ≡ as_value text.now }
{
    let number = number_within(1, u16::MAX, text)?;
    if number == AS_TRANS {
        return None;
    }
    Some(number)
}

fn shards_value(text: &[u8]) -> Option<u16>
    ensures { result ≡ number_within 1 64 text.now }
{
    number_within(1, MOST_SHARDS, text)
}

fn hold_value(text: &[u8]) -> Option<u16>
    ensures { result ≡ hold_value text.now }
{
    let hold = number_within(0, u16::MAX, text)?;
    if hold > 0 && hold < LEAST_HOLD {
        return None;
    }
    Some(hold)
}

/// An address but 0.0.0.0.
fn name_value(text: &[u8]) -> Option<Addr>
    ensures { result ≡ name_value text.now }
{
    let address = read_addr(text)?;
    if address.0 == 0 {
        return None;
    }
    Some(address)
}

/// A number of this range.
fn number_within(least: u16, most: u16, text: &[u8]) -> Option<u16>
    ensures { result ≡ number_within least most text.now }
{
    let number = read_number(text)?;
    if number < u64::from(least) || number > u64::from(most) {
        return None;
    }
    Some(number as u16)
}
