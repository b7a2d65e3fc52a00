//! The settings, and their words.

ghost use Rattle.std.specs.Prelude.{◌≡◌, ℕ, List, map, MatchOption};
ghost use Rattle.rcpd_words.specs.Words.{StandFor, StandForNone, endpoint_of, port_of, sessions_of};
ghost use Rattle.rcpd_words.specs.declared.settings.Settings.{Settings};

use crate::options::values_of;
use rcp_base::{Addr, read_addr, read_number};

/// An IPv4 address and a TCP port of 1 to 65535.
#[derive(Clone, Copy, Debug, PartialEq, Eq)]
pub struct Endpoint {
    pub address: Addr,
    pub port: u16,
}

/// What the daemon is asked to do.
#[derive(Clone, Copy, Debug, PartialEq, Eq)]
pub struct Settings {
    /// Where BGP sessions are accepted.
    pub bgp: Endpoint,
    /// Where streams of link state are accepted.
    pub link_state: Endpoint,
    /// How many BGP sessions are served, 1 to 1024.
    pub sessions: u16,
}

impl Settings {
    /// The settings that the words after the program's name stand for. None exactly where they stand for none.
    pub fn of_words(words: &[&str]) -> Option<Settings>
        ensures { MatchOption result (StandForNone (map (λ word. word.now) words.now)) (λ settings. StandFor (map (λ word. word.now) words.now) settings) }
    {
        let values = values_of(words)?;
        let bgp = endpoint_in(values.bgp)?;
        let link_state = endpoint_in(values.link_state)?;
        let sessions = sessions_in(values.sessions)?;
        Some(Settings {
            bgp,
            link_state,
            sessions,
        })
    }
}

/// The endpoint of a text: an address, a colon and a port.
fn endpoint_in(text: &str) -> Option<Endpoint>
    ensures { result ≡ endpoint_of text.now }
{
    let (address, port) = text.split_once(':')?;
    let address = read_addr(address.as_bytes())?;
    let port = port_in(port)?;
    Some(Endpoint { address, port })
}

/// A port of 1 to 65535.
fn port_in(text: &str) -> Option<u16>
    ensures { result ≡ port_of text.now }
{
    let number = u16::try_from(read_number(text.as_bytes())?).ok()?;
    if number == 0 {
        return None;
    }
    Some(number)
}

/// A number of sessions, 1 to 1024.
fn sessions_in(text: &str) -> Option<u16>
    ensures { result ≡ sessions_of text.now }
{
    let number = u16::try_from(read_number(text.as_bytes())?).ok()?;
    if number == 0 || number > 1024 {
        return None;
    }
    Some(number)
}

/// Words stand for one list of settings at most.
pub fn words_stand_for_one_list_of_settings()
    ensures { (words : List (List ℕ)) (one other : Settings) → StandFor words one → StandFor words other → one ≡ other }
{}
