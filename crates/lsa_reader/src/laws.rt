// A law over all LSAs. It is the contract of a function that does nothing.
ghost use Rattle.std.specs.Prelude.{◌≡◌, List, ℕ, Ok};
ghost use Rattle.rcp_model.specs.LinkState.{RouterLsa};
ghost use Rattle.rcp_model.specs.RouterLsas.{checksum_field, lsa_at};
ghost use Rattle.lsa_reader.specs.Writing.{FitsLsa, Spells, with_checksum};

/// What is written is read again, with the checksum that was written.
pub fn written_is_read()
    ensures { (lsa : RouterLsa) (octets : List ℕ) → FitsLsa lsa → Spells lsa octets →
        lsa_at octets ≡ Ok (with_checksum (checksum_field octets) lsa) }
{}
