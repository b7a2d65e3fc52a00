//! Link-state packets and instances whose outcome is known (RFC 2328 sections 12.1, 13.1, 14 and A.3).

ghost use Rattle.std.specs.Prelude.{◌≡◌, [], ◌∷◌, ◌++◌, Ok, Err, pos};
ghost use Rattle.rcp_base.specs.OspfPackets.{lost, front_of, packets_in, rest_in};
ghost use Rattle.rcp_model.specs.declared.lsa_fault.LsaFault.TheVariants.{Short, Checksum};
ghost use Rattle.rcp_model.specs.LinkState.{Newer, Same, Older, Flushed, installation, installed, aged};
ghost use Rattle.rcp_model.specs.LinkStateUpdates.{lsas_of_packet};
ghost use Rattle.meaning_cases.specs.LinkStateCases.{first_sequence, lsa_of_A, packet_of, three_lsas, update_packet, hello, of_version_3, no_routers};

/// A packet brings its router LSAs in order, each read or with its fault. That it has fewer LSAs than it counts is a fault for
/// itself. Packets of other areas and other types bring nothing.
pub fn packets_bring_router_lsas()
    ensures update { lsas_of_packet 0 (update_packet 0) ≡ Ok (lsa_of_A 9 first_sequence 65302 11) ∷ Err Checksum ∷ Err Short ∷ [] }
    ensures another_area { lsas_of_packet 0 (update_packet 1) ≡ [] }
    ensures another_type { lsas_of_packet 0 (packet_of 5 0 128 three_lsas) ≡ [] }
{}

/// Framing is lost at a header of version 3, here at octet 48, and the packets before it count.
pub fn framing_is_lost_at_another_version()
    ensures packets { packets_in (hello ++ hello ++ of_version_3) ≡ hello ∷ hello ∷ [] }
    ensures rest { rest_in (hello ++ hello ++ of_version_3) ≡ of_version_3 }
    ensures lost { front_of of_version_3 ≡ lost }
{}

/// An instance that is installed at the age 3590 is there after 9 seconds, and gone after 10.
pub fn instances_go_at_their_greatest_age()
    ensures there { aged 9 (installed 0 (lsa_of_A 3590 (pos 1) 7 10) no_routers) ≡ installed 0 (lsa_of_A 3590 (pos 1) 7 10) no_routers }
    ensures gone { aged 10 (installed 0 (lsa_of_A 3590 (pos 1) 7 10) no_routers) ≡ no_routers }
{}

/// Where an instance is kept: the same one again, one whose age is 901 off, one whose age is 900 off, one with a lower and one
/// with a higher sequence number, and one of the greatest age.
pub fn the_more_recent_instance_is_kept()
    ensures first { installation 0 (lsa_of_A 0 (pos 1) 7 10) no_routers ≡ Newer }
    ensures same { installation 0 (lsa_of_A 0 (pos 1) 7 10) (installed 0 (lsa_of_A 0 (pos 1) 7 10) no_routers) ≡ Same }
    ensures much_older { installation 0 (lsa_of_A 901 (pos 1) 7 10) (installed 0 (lsa_of_A 0 (pos 1) 7 10) no_routers) ≡ Older }
    ensures little_older { installation 0 (lsa_of_A 900 (pos 1) 7 10) (installed 0 (lsa_of_A 0 (pos 1) 7 10) no_routers) ≡ Same }
    ensures lower { installation 0 (lsa_of_A 0 (pos 1) 7 10) (installed 0 (lsa_of_A 0 (pos 2) 7 10) no_routers) ≡ Older }
    ensures higher { installation 0 (lsa_of_A 0 (pos 2) 7 10) (installed 0 (lsa_of_A 0 (pos 1) 7 10) no_routers) ≡ Newer }
    ensures flushed { installation 0 (lsa_of_A 3600 (pos 1) 7 10) (installed 0 (lsa_of_A 0 (pos 1) 7 10) no_routers) ≡ Flushed }
    ensures flushed_first { installation 0 (lsa_of_A 3600 (pos 1) 7 10) no_routers ≡ Flushed }
{}
