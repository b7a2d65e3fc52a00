//! The least of the prefixes that shards answer.

ghost use Rattle.std.specs.Prelude.{◌≡◌};
ghost use Rattle.rcs_shards.specs.Least.{lesser_of};

use rcp_base::Prefix;

/// The lesser of two prefixes, or the one that there is.
pub(crate) fn lesser(a: Option<Prefix>, b: Option<Prefix>) -> Option<Prefix>
    ensures { result ≡ lesser_of a b }
{
    let Some(p) = a else {
        return b;
    };
    let Some(q) = b else {
        return Some(p);
    };
    if q < p { Some(q) } else { Some(p) }
}

/// The same prefix once more, where there is one.
pub(crate) fn again(p: &Option<Prefix>) -> Option<Prefix>
    ensures { result ≡ p.now }
{
    match p {
        Some(p) => Some(*p),
        None => None,
    }
}
