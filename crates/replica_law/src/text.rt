//! The text of answers.

ghost use Rattle.std.specs.Prelude.{◌≡◌, ◌<◌, [], ◌∷◌, ◌++◌, map, option_map, codes, IfOk, OnOk};
ghost use Rattle.std.specs.Fmt.{decimal};
ghost use Rattle.rcp_base.specs.Text.{address_text, prefix_text};
ghost use Rattle.replica_law.specs.Texts.{space, hex_digit, hex_text, yes_or_no, or_none, words, difference_words, outcome_words, answer_line, answers_text};

use crate::difference::{Difference, PartitionAnswer};
use rcp_base::{Addr, NoMemory, Prefix, RouterId};
use rcp_model::Octets;
use std::alloc::Global;

/// A line for each answer: `partition ROUTER same`, or `partition ROUTER differs` with `as N N`, `member ROUTER yes no` (or
/// `no yes`), `identity ROUTER ADDRESS ADDRESS`, `link ROUTER ROUTER N N` or `route ROUTER PREFIX HEX HEX`. `none` stands for an
/// absent value, and octets are written in hexadecimal, in lower case.
///
/// `NoMemory` comes where there was no room for the text.
pub fn text_of(alloc: Global, answers: &[PartitionAnswer]) -> Result<Vec<u8>, NoMemory>
    ensures { IfOk result (λ text. text.items ≡ answers_text answers.now) }
{
    let mut text = Vec::new(alloc);
    for answer in answers {
        put_line(&mut text, alloc, answer)?;
    }
    Ok(text)
}

/// Puts the line of one answer at the end.
fn put_line(text: &mut Vec<u8>, alloc: Global, answer: &PartitionAnswer) -> Result<(), NoMemory>
    ensures { OnOk result (text.new.items ≡ text.old.items ++ answer_line answer.now) }
{
    text.extend_from_slice(b"partition")?;
    put_router(text, alloc, answer.least)?;
    match &answer.difference {
        None => put_word(text, b"same")?,
        Some(difference) => {
            put_word(text, b"differs")?;
            put_difference(text, alloc, difference)?;
        }
    }
    text.push(b'\n')?;
    Ok(())
}

/// Puts the words of a difference at the end.
fn put_difference(
    text: &mut Vec<u8>,
    alloc: Global,
    difference: &Difference,
) -> Result<(), NoMemory>
    ensures { OnOk result (text.new.items ≡ text.old.items ++ words (difference_words difference.now)) }
{
    match difference {
        Difference::As { first, second } => {
            put_word(text, b"as")?;
            put_number(text, alloc, *first)?;
            put_number(text, alloc, *second)
        }
        Difference::Member {
            router,
            first,
            second,
        } => {
            put_word(text, b"member")?;
            put_router(text, alloc, *router)?;
            put_flag(text, *first)?;
            put_flag(text, *second)
        }
        Difference::Identity {
            router,
            first,
            second,
        } => {
            put_word(text, b"identity")?;
            put_router(text, alloc, *router)?;
            put_identifier(text, alloc, *first)?;
            put_identifier(text, alloc, *second)
        }
        Difference::LinkCost {
            from,
            to,
            first,
            second,
        } => {
            put_word(text, b"link")?;
            put_router(text, alloc, *from)?;
            put_router(text, alloc, *to)?;
            put_cost(text, alloc, *first)?;
            put_cost(text, alloc, *second)
        }
        Difference::RouteOf {
            router,
            prefix,
            first,
            second,
        } => {
            put_word(text, b"route")?;
            put_router(text, alloc, *router)?;
            put_prefix(text, alloc, *prefix)?;
            put_octets(text, first)?;
            put_octets(text, second)
        }
    }
}

/// Puts a space and a word at the end.
fn put_word(text: &mut Vec<u8>, word: &[u8]) -> Result<(), NoMemory>
    ensures { OnOk result (text.new.items ≡ text.old.items ++ space ∷ word.now) }
{
    text.push(b' ')?;
    text.extend_from_slice(word)?;
    Ok(())
}

fn put_number(text: &mut Vec<u8>, alloc: Global, number: u32) -> Result<(), NoMemory>
    ensures { OnOk result (text.new.items ≡ text.old.items ++ space ∷ decimal number) }
{
    let word = format!(in alloc; "{number}")?;
    put_word(text, word.as_bytes())
}

fn put_router(text: &mut Vec<u8>, alloc: Global, router: RouterId) -> Result<(), NoMemory>
    ensures { OnOk result (text.new.items ≡ text.old.items ++ space ∷ address_text router) }
{
    let word = format!(in alloc; "{router}")?;
    put_word(text, word.as_bytes())
}

fn put_prefix(text: &mut Vec<u8>, alloc: Global, prefix: Prefix) -> Result<(), NoMemory>
    ensures { OnOk result (text.new.items ≡ text.old.items ++ space ∷ prefix_text prefix) }
{
    let word = format!(in alloc; "{prefix}")?;
    put_word(text, word.as_bytes())
}

fn put_flag(text: &mut Vec<u8>, flag: bool) -> Result<(), NoMemory>
    ensures { OnOk result (text.new.items ≡ text.old.items ++ space ∷ yes_or_no flag) }
{
    if flag {
        put_word(text, b"yes")
    } else {
        put_word(text, b"no")
    }
}

fn put_identifier(text: &mut Vec<u8>, alloc: Global, id: Option<Addr>) -> Result<(), NoMemory>
    ensures { OnOk result (text.new.items ≡ text.old.items ++ space ∷ or_none (option_map address_text id)) }
{
    let Some(id) = id else {
        return put_word(text, b"none");
    };
    let word = format!(in alloc; "{id}")?;
    put_word(text, word.as_bytes())
}

fn put_cost(text: &mut Vec<u8>, alloc: Global, cost: Option<u32>) -> Result<(), NoMemory>
    ensures { OnOk result (text.new.items ≡ text.old.items ++ space ∷ or_none (option_map decimal cost)) }
{
    match cost {
        Some(cost) => put_number(text, alloc, cost),
        None => put_word(text, b"none"),
    }
}

fn put_octets(text: &mut Vec<u8>, octets: &Option<Octets>) -> Result<(), NoMemory>
    ensures { OnOk result (text.new.items ≡ text.old.items ++ space ∷ or_none (option_map hex_text octets.now)) }
{
    match octets {
        Some(octets) => put_hex(text, octets.as_slice()),
        None => put_word(text, b"none"),
    }
}

/// Puts a space and octets in hexadecimal at the end.
fn put_hex(text: &mut Vec<u8>, octets: &[u8]) -> Result<(), NoMemory>
    ensures { OnOk result (text.new.items ≡ text.old.items ++ space ∷ hex_text octets.now) }
{
    text.push(b' ')?;
    for octet in octets {
        text.push(hex_digit(*octet / 16))?;
        text.push(hex_digit(*octet % 16))?;
    }
    Ok(())
}

/// The digit of a number below 16.
fn hex_digit(number: u8) -> u8
    requires { number < 16 }
    ensures { result ≡ hex_digit number }
{
    if number < 10 {
        b'0' + number
    } else {
        b'a' + (number - 10)
    }
}
