//! The record that the words of a line stand for.

ghost use Rattle.std.specs.Prelude.{◌≡◌, ◌≤◌, ◌^◌, [], ◌∷◌, ◌++◌, length, IfOk, OnOk, IsSome, ℕ, List, Option, Some, None, Result, Ok, Err};
ghost use Rattle.line_words.specs.Words.{words_of};
ghost use Rattle.line_words.specs.Reading.{Gives};
ghost use Rattle.feed_words.specs.Heads.{GivesRecord, GivesPiece, piece_octets};
ghost use Rattle.feed_words.specs.Records.{established, connect, time, work, bare, ospf_lost, reason, close, summary, any_record, bgp, ospf, rare_record, platform_record, record_of, fitting_record, words_octets};

use crate::parts::{Protocol, parts};
use line_words::{
    Stop, Why, address_word, code_word, ended, fault, hex_word, number_field, number_word,
    octet_word, split_word,
};
use std::alloc::AllocError;

/// The fields of a record before its body.
#[derive(Clone, Copy)]
pub(crate) struct Head {
    pub kind: u8,
    pub source: u32,
}

/// The most octets that a body has.
const MOST_BODY: usize = 65536;

#[tactic(auto, unfolding(crate::specs::Records::established))]
fn established(words: &[u8], body: &mut Vec<u8>) -> Result<Head, Stop>
    requires { body.old.items ≡ [] }
    ensures { GivesRecord result body.new.items (established (words_of words.now)) }
{
    let (source, words) = number_word::<u32>(words)?;
    let (id, words) = address_word(words)?;
    ended(words)?;
    body.extend_from_slice(&id.to_be_bytes())?;
    Ok(Head { kind: b'E', source })
}

#[tactic(auto, unfolding(crate::specs::Records::connect))]
fn connect(words: &[u8], body: &Vec<u8>) -> Result<Head, Stop>
    requires { body.now.items ≡ [] }
    ensures { GivesRecord result body.now.items (connect (words_of words.now)) }
{
    let (source, words) = number_word::<u32>(words)?;
    ended(words)?;
    Ok(Head { kind: b'U', source })
}

#[tactic(auto, unfolding(crate::specs::Records::time))]
fn time(words: &[u8], body: &mut Vec<u8>) -> Result<Head, Stop>
    requires { body.old.items ≡ [] }
    ensures { GivesRecord result body.new.items (time (words_of words.now)) }
{
    let (seconds, words) = number_word::<u64>(words)?;
    ended(words)?;
    body.extend_from_slice(&seconds.to_be_bytes())?;
    Ok(Head {
        kind: b'T',
        source: 0,
    })
}

#[tactic(auto, unfolding(crate::specs::Records::work))]
fn work(words: &[u8], body: &mut Vec<u8>) -> Result<Head, Stop>
    requires { body.old.items ≡ [] }
    ensures { GivesRecord result body.new.items (work (words_of words.now)) }
{
    let (shard, words) = number_word::<u16>(words)?;
    let (count, words) = number_word::<u32>(words)?;
    ended(words)?;
    body.extend_from_slice(&shard.to_be_bytes())?;
    body.extend_from_slice(&count.to_be_bytes())?;
    Ok(Head {
        kind: b'W',
        source: 0,
    })
}

/// A kind with no fields.
#[tactic(auto, unfolding(crate::specs::Records::bare))]
fn bare(kind: u8, words: &[u8], body: &Vec<u8>) -> Result<Head, Stop>
    requires { body.now.items ≡ [] }
    ensures { GivesRecord result body.now.items (bare kind (words_of words.now)) }
{
    ended(words)?;
    Ok(Head { kind, source: 0 })
}

#[tactic(auto, unfolding(crate::specs::Records::ospf_lost))]
fn ospf_lost(words: &[u8], body: &mut Vec<u8>) -> Result<Head, Stop>
    requires { body.old.items ≡ [] }
    ensures { GivesRecord result body.new.items (ospf_lost (words_of words.now)) }
{
    let (place, words) = number_word::<u64>(words)?;
    ended(words)?;
    body.extend_from_slice(&place.to_be_bytes())?;
    Ok(Head {
        kind: b'Q',
        source: 0,
    })
}

/// Appends the reason, code and subcode of a connection's end, where words give them.
#[tactic(auto, unfolding(crate::specs::Records::reason))]
fn reason<'a>(words: &'a [u8], body: &mut Vec<u8>) -> Result<&'a [u8], Stop>
    requires { body.old.items ≡ [] }
    ensures { Gives (λ rest. (body.new.items, words_of rest.now)) result (reason (words_of words.now)) }
{
    let Some((word, rest)) = split_word(words) else {
        return Ok(words);
    };
    if word == b"fault".as_slice() {
        body.push(1)?;
        code_word(rest, body)
    } else if word == b"received".as_slice() {
        body.push(2)?;
        code_word(rest, body)
    } else if word == b"peer-closed".as_slice() {
        body.extend_from_slice(&[3, 0, 0])?;
        Ok(rest)
    } else if word == b"seat-taken".as_slice() {
        body.push(4)?;
        code_word(rest, body)
    } else {
        Err(fault(words, Why::Word))
    }
}

#[tactic(auto, unfolding(crate::specs::Records::close))]
fn close(words: &[u8], body: &mut Vec<u8>) -> Result<Head, Stop>
    requires { body.old.items ≡ [] }
    ensures { GivesRecord result body.new.items (close (words_of words.now)) }
{
    let (source, words) = number_word::<u32>(words)?;
    let words = reason(words, body)?;
    ended(words)?;
    Ok(Head { kind: b'X', source })
}

#[tactic(auto, unfolding(crate::specs::Records::summary))]
fn summary(words: &[u8], body: &mut Vec<u8>) -> Result<Head, Stop>
    requires { body.old.items ≡ [] }
    ensures { GivesRecord result body.new.items (summary (words_of words.now)) }
{
    let (routers, words) = number_field::<u64>(words, b"routers=")?;
    let (prefixes, words) = number_field::<u64>(words, b"prefixes=")?;
    let (updates, words) = number_field::<u64>(words, b"updates=")?;
    ended(words)?;
    body.extend_from_slice(&routers.to_be_bytes())?;
    body.extend_from_slice(&prefixes.to_be_bytes())?;
    body.extend_from_slice(&updates.to_be_bytes())?;
    Ok(Head {
        kind: b'S',
        source: 0,
    })
}

/// A record of any kind.
#[tactic(auto, unfolding(crate::specs::Records::any_record))]
fn any_record(words: &[u8], body: &mut Vec<u8>) -> Result<Head, Stop>
    requires { body.old.items ≡ [] }
    ensures { GivesRecord result body.new.items (any_record (words_of words.now)) }
{
    let (kind, words) = octet_word(words)?;
    let (source, words) = number_word::<u32>(words)?;
    let words = hex_word(words, body)?;
    ended(words)?;
    Ok(Head { kind, source })
}

#[tactic(auto, unfolding(crate::specs::Records::bgp))]
fn bgp(words: &[u8], body: &mut Vec<u8>) -> Result<Head, Stop>
    requires { body.old.items ≡ [] }
    ensures { GivesRecord result body.new.items (bgp (words_of words.now)) }
{
    let (source, words) = number_word::<u32>(words)?;
    parts(Protocol::Bgp, words, body)?;
    Ok(Head { kind: b'B', source })
}

#[tactic(auto, unfolding(crate::specs::Records::ospf))]
fn ospf(words: &[u8], body: &mut Vec<u8>) -> Result<Head, Stop>
    requires { body.old.items ≡ [] }
    ensures { GivesRecord result body.new.items (ospf (words_of words.now)) }
{
    parts(Protocol::Ospf, words, body)?;
    Ok(Head {
        kind: b'L',
        source: 0,
    })
}

/// The record of the words of a line; its body is appended. The first word is `word`, and `rest` the ones after it.
#[tactic(auto, unfolding(crate::specs::Records::record_of))]
fn record_of(words: &[u8], word: &[u8], rest: &[u8], body: &mut Vec<u8>) -> Result<Head, Stop>
    requires first { words_of words.now ≡ word.now ∷ words_of rest.now }
    requires empty { body.old.items ≡ [] }
    ensures { GivesRecord result body.new.items (record_of word.now (words_of rest.now)) }
{
    if word == b"established".as_slice() {
        established(rest, body)
    } else if word == b"connect".as_slice() {
        connect(rest, body)
    } else if word == b"bgp".as_slice() {
        bgp(rest, body)
    } else if word == b"close".as_slice() {
        close(rest, body)
    } else {
        platform_record(words, word, rest, body)
    }
}

/// A record of the platform, whose source is 0, or one of any kind.
#[tactic(auto, unfolding(crate::specs::Records::platform_record))]
fn platform_record(words: &[u8], word: &[u8], rest: &[u8], body: &mut Vec<u8>) -> Result<Head, Stop>
    requires first { words_of words.now ≡ word.now ∷ words_of rest.now }
    requires empty { body.old.items ≡ [] }
    ensures { GivesRecord result body.new.items (platform_record word.now (words_of rest.now)) }
{
    if word == b"ospf".as_slice() {
        ospf(rest, body)
    } else if word == b"time".as_slice() {
        time(rest, body)
    } else if word == b"work".as_slice() {
        work(rest, body)
    } else if word == b"drain".as_slice() {
        bare(b'D', rest, body)
    } else if word == b"end".as_slice() {
        bare(b'Z', rest, body)
    } else {
        rare_record(words, word, rest, body)
    }
}

/// A record that a feed doesn't have, or one of any kind.
#[tactic(auto, unfolding(crate::specs::Records::rare_record))]
fn rare_record(words: &[u8], word: &[u8], rest: &[u8], body: &mut Vec<u8>) -> Result<Head, Stop>
    requires first { words_of words.now ≡ word.now ∷ words_of rest.now }
    requires empty { body.old.items ≡ [] }
    ensures { GivesRecord result body.new.items (rare_record word.now (words_of rest.now)) }
{
    if word == b"ospf-lost".as_slice() {
        ospf_lost(rest, body)
    } else if word == b"summary".as_slice() {
        summary(rest, body)
    } else if word == b"record".as_slice() {
        any_record(rest, body)
    } else {
        Err(fault(words, Why::Word))
    }
}

#[tactic(auto, unfolding(crate::specs::Records::fitting_record))]
fn fitting_record(words: &[u8], word: &[u8], rest: &[u8], body: &mut Vec<u8>) -> Result<Head, Stop>
    requires first { words_of words.now ≡ word.now ∷ words_of rest.now }
    requires empty { body.old.items ≡ [] }
    ensures gives { GivesRecord result body.new.items (fitting_record word.now (words_of rest.now)) }
    ensures short { OnOk result (length body.new.items ≤ 65536) }
{
    let head = record_of(words, word, rest, body)?;
    if body.len() > MOST_BODY {
        return Err(fault(words, Why::Long));
    }
    Ok(head)
}

/// The octets that the words of a line stand for: those of the record with this head and body, or the body alone where the
/// line is of octets. The first word is `word`, and `rest` the ones after it.
#[tactic(auto, unfolding(crate::specs::Records::words_octets))]
pub(crate) fn piece_of(
    words: &[u8],
    word: &[u8],
    rest: &[u8],
    body: &mut Vec<u8>,
) -> Result<Option<Head>, Stop>
    requires first { words_of words.now ≡ word.now ∷ words_of rest.now }
    requires empty { body.old.items ≡ [] }
    ensures gives { GivesPiece result body.new.items (words_octets word.now (words_of rest.now)) }
    ensures short { IfOk result (λ head. IsSome head → length body.new.items ≤ 65536) }
{
    if word == b"octets".as_slice() {
        let rest = hex_word(rest, body)?;
        ended(rest)?;
        Ok(None)
    } else {
        let head = fitting_record(words, word, rest, body)?;
        Ok(Some(head))
    }
}

/// Appends the octets of a piece.
pub(crate) fn push_piece(
    out: &mut Vec<u8>,
    head: Option<Head>,
    body: &[u8],
) -> Result<(), AllocError>
    requires { IsSome head → length body.now ≤ 65536 }
    ensures { OnOk result (out.new.items ≡ out.old.items ++ piece_octets head body.now) }
{
    if let Some(head) = head {
        out.push(head.kind)?;
        out.extend_from_slice(&head.source.to_be_bytes())?;
        out.extend_from_slice(&(body.len() as u32).to_be_bytes())?;
    }
    out.extend_from_slice(body)
}
