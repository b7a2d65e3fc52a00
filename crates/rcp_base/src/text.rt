//! Texts of numbers, addresses and prefixes.

ghost use Rattle.std.specs.Prelude.{◌≡◌, ℕ, ◌+◌, ◌^◌, ◌<◌, ◌≤◌, ◌==◌, [], ◌∷◌, ◌++◌, length, take, drop, Some, option_map, IfSome, IfNone, MatchOption};
ghost use Rattle.std.specs.Fmt.{decimal};
ghost use Rattle.std.specs.Char.{is_ascii_digit};
ghost use Rattle.std.specs.List.{list_all, position, slice_split};
ghost use Rattle.rcp_base.specs.IpPrefix.{IpPrefix, IsPrefix};
ghost use Rattle.rcp_base.specs.Text.{dot, slash, address_text, prefix_text, is_number, number_of, octet_of, address_of_parts, address_of, prefix_of_parts, prefix_of_text, SpellsPrefix, written_at};

use crate::names::Addr;
use crate::prefix::Prefix;
use std::str;

/// The number of a text: decimal digits without a leading 0 (but `0` itself), at most 2^64 - 1.
pub fn read_number(text: &[u8]) -> Option<u64>
    ensures value { result ≡ number_of text.now }
    ensures found { IfSome result (λ n. text.now ≡ decimal n) }
    ensures none { IfNone result ((n : ℕ) → n < 2 ^ 64 → text.now ≡ decimal n → ⊥) }
{
    number_in(text)
}

/// Decimal digits without a leading 0, but `0` itself.
fn is_numeral(text: &[u8]) -> bool
    ensures { result ≡ is_number text.now }
{
    match text {
        [] => false,
        [c] => c.is_ascii_digit(),
        [b'0', ..] => false,
        _ => all_digits(text),
    }
}

fn all_digits(text: &[u8]) -> bool
    ensures { result ≡ list_all is_ascii_digit text.now }
{
    text.iter().all(|c| c.is_ascii_digit())
}

/// `parse` alone would also take a plus and leading zeros.
fn number_in(text: &[u8]) -> Option<u64>
    ensures { result ≡ number_of text.now }
{
    if !is_numeral(text) {
        return None;
    }
    str::from_utf8(text).ok()?.parse().ok()
}

/// The place of the first such octet.
fn first_place(text: &[u8], by: u8) -> Option<usize>
    ensures { result ≡ position (λ c. c == by) text.now }
{
    text.iter().position(|c| *c == by)
}

/// The parts before and after the first such octet. None where there is none.
fn split_at_first(text: &[u8], by: u8) -> Option<(&[u8], &[u8])>
    ensures { MatchOption result (slice_split (λ c. c == by) text.now ≡ text.now ∷ [])
        (λ parts. slice_split (λ c. c == by) text.now ≡ parts.0.now ∷ slice_split (λ c. c == by) parts.1.now) }
{
    let place = first_place(text, by)?;
    Some((&text[..place], &text[place + 1..]))
}

fn octet_in(text: &[u8]) -> Option<u8>
    ensures { result ≡ octet_of text.now }
{
    u8::try_from(number_in(text)?).ok()
}

fn address_of_four(a: &[u8], b: &[u8], c: &[u8], d: &[u8]) -> Option<u32>
    ensures { result ≡ address_of_parts (a.now ∷ b.now ∷ c.now ∷ d.now ∷ []) }
{
    let octets = [octet_in(a)?, octet_in(b)?, octet_in(c)?, octet_in(d)?];
    Some(u32::from_be_bytes(octets))
}

fn address_in(text: &[u8]) -> Option<u32>
    ensures { result ≡ address_of text.now }
{
    let (a, rest) = split_at_first(text, b'.')?;
    let (b, rest) = split_at_first(rest, b'.')?;
    let (c, d) = split_at_first(rest, b'.')?;
    address_of_four(a, b, c, d)
}

/// The address of a text: four numbers of 0 to 255 joined by dots.
pub fn read_addr(text: &[u8]) -> Option<Addr>
    ensures value { result ≡ address_of text.now }
    ensures found { IfSome result (λ a. text.now ≡ address_text a) }
    ensures none { IfNone result ((a : ℕ) → a < 2 ^ 32 → text.now ≡ address_text a → ⊥) }
{
    match address_in(text) {
        Some(address) => Some(Addr(address)),
        None => None,
    }
}

fn prefix_of_two(address: &[u8], len: &[u8]) -> Option<Prefix>
    ensures { result ≡ prefix_of_parts (address.now ∷ len.now ∷ []) }
{
    let address = address_in(address)?;
    let len = u8::try_from(number_in(len)?).ok()?;
    Prefix::new(address, len)
}

/// The prefix of a text: an address, `/` and a length of 0 to 32. Bits after the length are set to 0.
pub fn read_prefix(text: &[u8]) -> Option<Prefix>
    ensures value { result ≡ prefix_of_text text.now }
    ensures found { IfSome result (SpellsPrefix text.now) }
    ensures none { IfNone result ((p : IpPrefix) → SpellsPrefix text.now p → ⊥) }
{
    prefix_in(text)
}

fn prefix_in(text: &[u8]) -> Option<Prefix>
    ensures { result ≡ prefix_of_text text.now }
{
    let (address, len) = split_at_first(text, b'/')?;
    prefix_of_two(address, len)
}

/// Writes the digits of a number from a place on, and answers the place after them.
fn put_number(out: &mut [u8], place: usize, number: u8) -> usize
    requires { place + length (decimal number) ≤ length out.old }
    ensures text { out.new ≡ written_at place (decimal number) out.old }
    ensures place { result ≡ place + length (decimal number) }
    ensures up_to { result ≤ place + 3 }
{
    if number < 10 {
        out[place] = b'0' + number;
        return place + 1;
    }
    let place = put_number(out, place, number / 10);
    out[place] = b'0' + number % 10;
    place + 1
}

/// Writes an address at the front, and answers the place after it.
fn put_address(out: &mut [u8], address: u32) -> usize
    requires { 15 ≤ length out.old }
    ensures text { out.new ≡ written_at 0 (address_text address) out.old }
    ensures place { result ≡ length (address_text address) }
    ensures up_to { result ≤ 15 }
{
    let [a, b, c, d] = address.to_be_bytes();
    let place = put_number(out, 0, a);
    let place = put_dot_and(out, place, b);
    let place = put_dot_and(out, place, c);
    put_dot_and(out, place, d)
}

fn put_dot_and(out: &mut [u8], place: usize, number: u8) -> usize
    requires { place + 4 ≤ length out.old }
    ensures text { out.new ≡ written_at place (dot ∷ decimal number) out.old }
    ensures place { result ≡ place + 1 + length (decimal number) }
    ensures up_to { result ≤ place + 4 }
{
    out[place] = b'.';
    put_number(out, place + 1, number)
}

/// Writes the address at the front, and answers how many octets it took: 7 to 15.
pub fn write_addr(a: Addr, out: &mut [u8; 15]) -> usize
    ensures text { out.new ≡ address_text a ++ drop result out.old }
    ensures count { result ≡ length (address_text a) }
{
    put_address(out, a.0)
}

/// Writes the prefix at the front, and answers how many octets it took: 9 to 18.
pub fn write_prefix(p: Prefix, out: &mut [u8; 18]) -> usize
    ensures text { out.new ≡ prefix_text p ++ drop result out.old }
    ensures count { result ≡ length (prefix_text p) }
{
    let place = put_address(out, p.addr());
    out[place] = b'/';
    put_number(out, place + 1, p.len())
}

/// The text of a number, an address or a prefix is read again as that.
pub fn texts_are_read_again()
    ensures number { (n : ℕ) → n < 2 ^ 64 → number_of (decimal n) ≡ Some n }
    ensures address { (a : ℕ) → a < 2 ^ 32 → address_of (address_text a) ≡ Some a }
    ensures prefix { (p : IpPrefix) → IsPrefix p → prefix_of_text (prefix_text p) ≡ Some p }
{}
