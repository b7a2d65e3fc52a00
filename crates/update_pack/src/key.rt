//! The key by which the group of attribute octets is found.

ghost use Rattle.std.specs.Prelude.{◌∷◌, []};
ghost use Rattle.std.proofs.Common.{rules};
ghost use Rattle.std.specs.Cmp.Rules.{hashing};

use std::hash::{Hash, Hasher};

/// Octets that are hashed at once, and not one by one as a slice is.
#[derive(Clone, Copy, PartialEq, Eq)]
pub(crate) struct OctetsKey<'a>(pub(crate) &'a [u8]);

impl Hash for OctetsKey<'_> {
    ghost hash_input = { λ key. key.0.now ∷ [] };

    ghost respects_eq = { Prim.search (hashing, rules) };

    fn hash<H: Hasher>(&self, state: &mut H) {
        state.write(self.0);
    }
}
