//! What the definition of packed UPDATEs comes to, computed.

ghost use Rattle.std.specs.Prelude.{◌≡◌, ◌∷◌, [], Some, None};
ghost use Rattle.rcp_model.specs.Packing.{packed};
ghost use Rattle.update_pack.specs.Sample.{sample_attributes, sample_cells, sample_announcement, sample_withdrawal};

/// Two prefixes that are announced with the same attributes share an UPDATE of 56 octets, and one of 31 octets withdraws both.
pub fn two_prefixes_share_an_update()
    ensures announced { packed (sample_cells (Some sample_attributes)) ≡ sample_announcement ∷ [] }
    ensures withdrawn { packed (sample_cells None) ≡ sample_withdrawal ∷ [] }
{}
