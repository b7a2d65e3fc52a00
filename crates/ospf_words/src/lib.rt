//! OSPF packets as words (RFC 2328 sections A.3.1, A.3.5, A.4.1 and A.4.2): from the words of a part of a line to the octets
//! of its packet.
//!
//! A caller may rely on this: [`ospf_part`] appends exactly the octets that the grammar of `specs/` gives for the words, each
//! length and count computed, or answers the fault of the first faulty word. The checksums of an LSA and of a packet are those
//! that are given, else the ones of RFC 2328; [`lsa_checksum`] and [`packet_checksum`] compute them, and a receiver takes
//! an LSA with the one that is computed ([`computed_checksums_pass`]). Packets of any type, LSAs
//! of any type and links of any type can be written, with octets in hexadecimal for what has no words.
//!
//! ```text
//! let rest = ospf_part(b"ls-update router=10.255.0.1 area=0.0.0.0 router-lsa age=1 id=10.0.0.1 sequence=0x80000001 \
//!     point-to-point=10.0.0.2:10", &mut octets)?;
//! ```
#![tactic(auto)]

mod checksums;
mod laws;
mod links;
mod lsas;
mod packets;

pub use checksums::{lsa_checksum, packet_checksum};
pub use laws::computed_checksums_pass;
pub use packets::ospf_part;
