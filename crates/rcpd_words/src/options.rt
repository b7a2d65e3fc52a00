//! The options and the texts of their values.

ghost use Rattle.std.specs.Prelude.{◌≡◌, ℕ, List, map, MatchOption};
ghost use Rattle.rcpd_words.specs.Words.{name_text, BeginWith, InAnyOrder, AreInOrder};
ghost use Rattle.rcpd_words.specs.declared.options.OptionName.{OptionName};
ghost use Rattle.rcpd_words.specs.declared.options.OptionName.TheVariants as option;

/// An option of the program.
#[derive(Clone, Copy, Debug, PartialEq, Eq)]
pub(crate) enum OptionName {
    Bgp,
    LinkState,
    Sessions,
}

/// An option, and the text of its value.
#[derive(Clone, Copy)]
struct Given<'w> {
    name: OptionName,
    value: &'w str,
}

/// The texts of the three values.
#[derive(Clone, Copy)]
pub(crate) struct Values<'w> {
    pub(crate) bgp: &'w str,
    pub(crate) link_state: &'w str,
    pub(crate) sessions: &'w str,
}

/// The option of this name.
fn option_of(word: &str) -> Option<OptionName>
    ensures { MatchOption result ((name : OptionName) → word.now ≡ name_text name → ⊥) (λ name. word.now ≡ name_text name) }
{
    if word == "--bgp" {
        Some(OptionName::Bgp)
    } else if word == "--ls" {
        Some(OptionName::LinkState)
    } else if word == "--sessions" {
        Some(OptionName::Sessions)
    } else {
        None
    }
}

/// The option with which the words begin, and the words after it.
fn first_option<'w>(words: &'w [&'w str]) -> Option<(Given<'w>, &'w [&'w str])>
    ensures { MatchOption result
        ((name : OptionName) (value : List ℕ) (rest : List (List ℕ)) → BeginWith name value (map (λ word. word.now) words.now) rest → ⊥)
        (λ r. BeginWith r.0.name r.0.value.now (map (λ word. word.now) words.now) (map (λ word. word.now) r.1.now)) }
{
    let (word, rest) = words.split_first()?;
    if let Some((name, value)) = word.split_once('=') {
        let name = option_of(name)?;
        return Some((Given { name, value }, rest));
    }
    let name = option_of(word)?;
    let (value, rest) = rest.split_first()?;
    Some((Given { name, value }, rest))
}

/// The values of the three options, which stand in any order.
pub(crate) fn values_of<'w>(words: &'w [&'w str]) -> Option<Values<'w>>
    ensures { MatchOption result
        ((bgp link_state sessions : List ℕ) → InAnyOrder (option.Bgp, bgp) (option.LinkState, link_state) (option.Sessions, sessions) (map (λ word. word.now) words.now) → ⊥)
        (λ v. InAnyOrder (option.Bgp, v.bgp.now) (option.LinkState, v.link_state.now) (option.Sessions, v.sessions.now) (map (λ word. word.now) words.now)) }
{
    let (one, rest) = first_option(words)?;
    let (two, rest) = first_option(rest)?;
    let (three, rest) = first_option(rest)?;
    if !rest.is_empty() {
        return None;
    }
    in_order(one, two, three)
}

/// The values, by the names of the three options. None where one of them stands twice.
fn in_order<'w>(one: Given<'w>, two: Given<'w>, three: Given<'w>) -> Option<Values<'w>>
    ensures { MatchOption result
        ((bgp link_state sessions : List ℕ) → AreInOrder (option.Bgp, bgp) (option.LinkState, link_state) (option.Sessions, sessions) (one.entry.name, one.entry.value.now) (two.entry.name, two.entry.value.now) (three.entry.name, three.entry.value.now) → ⊥)
        (λ v. AreInOrder (option.Bgp, v.bgp.now) (option.LinkState, v.link_state.now) (option.Sessions, v.sessions.now) (one.entry.name, one.entry.value.now) (two.entry.name, two.entry.value.now) (three.entry.name, three.entry.value.now)) }
{
    let (bgp, link_state, sessions) = match (one.name, two.name, three.name) {
        (OptionName::Bgp, OptionName::LinkState, OptionName::Sessions) => (one, two, three),
        (OptionName::Bgp, OptionName::Sessions, OptionName::LinkState) => (one, three, two),
        (OptionName::LinkState, OptionName::Bgp, OptionName::Sessions) => (two, one, three),
        (OptionName::LinkState, OptionName::Sessions, OptionName::Bgp) => (three, one, two),
        (OptionName::Sessions, OptionName::Bgp, OptionName::LinkState) => (two, three, one),
        (OptionName::Sessions, OptionName::LinkState, OptionName::Bgp) => (three, two, one),
        _ => return None,
    };
    Some(Values {
        bgp: bgp.value,
        link_state: link_state.value,
        sessions: sessions.value,
    })
}
