//! A flag for each opened prefix.

ghost use Rattle.std.specs.Prelude.{◌≡◌, true, not, Some, IsSome, if◌then◌else◌};
ghost use Rattle.std.specs.BTreeMap as tree;
ghost use Rattle.std.specs.BTreeMap.{IsOrdered};
ghost use Rattle.std.specs.Ordering.{eq_by_cmp};
ghost use Rattle.rcp_base.specs.IpPrefix.{IpPrefix, prefix_cmp};
ghost use Rattle.pending_marks.specs.Marks.{flag_of, first_in};

use rcp_base::Prefix;
use std::collections::BTreeMap;
use std::ops::Bound;

/// The flag of a prefix: false where it isn't opened.
pub fn flag(flags: &BTreeMap<Prefix, bool>, p: Prefix) -> bool
    ensures { result ≡ flag_of flags.now p }
{
    match flags.get(&p) {
        Some(flag) => *flag,
        None => false,
    }
}

/// Sets the flag of an opened prefix.
pub fn set_flag(flags: &mut BTreeMap<Prefix, bool>, p: Prefix, value: bool)
    requires { IsSome (tree.get prefix_cmp flags.old p) }
    ensures set { (q : IpPrefix) → tree.get prefix_cmp flags.new q
        ≡ (if eq_by_cmp prefix_cmp p q then Some value else tree.get prefix_cmp flags.old q) }
    ensures ordered { IsOrdered prefix_cmp flags.new }
{
    if let Some(flag) = flags.get_mut(&p) {
        *flag = value;
    }
}

/// Sets the flag of an opened prefix to true, by one look-up. Answers whether it was false.
pub fn raise_flag(flags: &mut BTreeMap<Prefix, bool>, p: Prefix) -> bool
    requires { IsSome (tree.get prefix_cmp flags.old p) }
    ensures raised { result ≡ not (flag_of flags.old p) }
    ensures set { (q : IpPrefix) → tree.get prefix_cmp flags.new q
        ≡ (if eq_by_cmp prefix_cmp p q then Some true else tree.get prefix_cmp flags.old q) }
    ensures ordered { IsOrdered prefix_cmp flags.new }
{
    let Some(flag) = flags.get_mut(&p) else {
        unreachable!()
    };
    let before = *flag;
    *flag = true;
    !before
}

/// The first prefix from this one on whose flag is set.
pub fn first_from(flags: &BTreeMap<Prefix, bool>, low: Prefix) -> Option<Prefix>
    ensures { result ≡ first_in low flags.now.entries }
{
    for (p, flag) in flags.range((Bound::Included(low), Bound::Unbounded)) {
        if *flag {
            return Some(*p);
        }
    }
    None
}
