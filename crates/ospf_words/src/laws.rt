//! A law over all LSAs. It is the contract of a function that does nothing.

ghost use Rattle.std.specs.Prelude.{◌≡◌, ◌++◌, ◌∷◌, List, ℕ, length, true};
ghost use Rattle.rcp_model.specs.RouterLsas.{has_zero_sums};
ghost use Rattle.ospf_words.specs.Checksums.{lsa_checksum};

/// With the checksum that is computed, both sums of an LSA are 0, as its receiver tests (RFC 2328 section 13). `before` are the
/// octets between its age and its checksum, `after` those after the checksum.
pub fn computed_checksums_pass()
    ensures { (before after : List ℕ) → length before ≡ 14 → has_zero_sums (before ++ lsa_checksum (before ++ 0 ∷ 0 ∷ after) ++ after) ≡ true }
{}
