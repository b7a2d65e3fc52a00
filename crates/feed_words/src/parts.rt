//! The parts of a `bgp` or an `ospf` line.

ghost use Rattle.std.specs.Prelude.{◌≡◌, ◌^◌, [], codes, bytes_eq};
ghost use Rattle.line_words.specs.Words.{words_of};
ghost use Rattle.line_words.specs.Reading.{Gives};
ghost use Rattle.feed_words.specs.Parts.{part_of, parts_within, parts};

use bgp_words::bgp_part;
use line_words::{Stop, Why, fault, split_word};
use ospf_words::ospf_part;

/// Whose messages a line has.
#[derive(Clone, Copy)]
pub(crate) enum Protocol {
    Bgp,
    Ospf,
}

/// The most parts that a line has.
const MOST_PARTS: u32 = 1 << 20;

/// A part of a line.
#[tactic(auto, unfolding(crate::specs::Parts::part_of))]
fn part<'a>(protocol: Protocol, words: &'a [u8], body: &mut Vec<u8>) -> Result<&'a [u8], Stop>
    ensures { Gives (λ rest. (body.new.items, words_of rest.now)) result (part_of protocol body.old.items (words_of words.now)) }
{
    match protocol {
        Protocol::Bgp => bgp_part(words, body),
        Protocol::Ospf => ospf_part(words, body),
    }
}

/// The word between two parts.
fn is_separator(word: &[u8]) -> bool
    ensures { result ≡ bytes_eq word.now (codes ";") }
{
    word == b";".as_slice()
}

/// Appends the octets of the parts of a line, with `;` between them.
pub(crate) fn parts(protocol: Protocol, words: &[u8], body: &mut Vec<u8>) -> Result<(), Stop>
    requires { body.old.items ≡ [] }
    ensures { Gives (λ _. body.new.items) result (parts (part_of protocol) (words_of words.now)) }
{
    match split_word(words) {
        Some(_) => some_parts(protocol, words, body),
        None => Ok(()),
    }
}

fn some_parts(protocol: Protocol, words: &[u8], body: &mut Vec<u8>) -> Result<(), Stop>
    ensures { Gives (λ _. body.new.items) result (parts_within (part_of protocol) (2 ^ 20) body.old.items (words_of words.now)) }
{
    let mut rest = words;
    for _ in 0..MOST_PARTS {
        let more = part(protocol, rest, body)?;
        match split_word(more) {
            None => return Ok(()),
            Some((word, part)) => {
                if !is_separator(word) {
                    return Err(fault(more, Why::Word));
                }
                rest = part;
            }
        }
    }
    Err(fault(rest, Why::Long))
}
