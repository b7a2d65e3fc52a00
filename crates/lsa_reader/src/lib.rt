//! Router LSAs as octets (RFC 2328 sections 12.1, A.3.5 and A.4.2), and the walk over the LSAs of a packet.
//!
//! An LSA is the record of its router, its header's sequence number, checksum and age, and its links. `next_lsa` walks
//! over a Link State Update and gives the length and the type of each LSA; `read` reads one router LSA; `write` writes
//! one.
//!
//! A caller may rely on this: `read` answers the LSA that the octets say, exactly where none of four checks fails, and
//! else the first fault in their order, and `NoMemory` only where the octets pass the first two checks and have a link; the walk gives exactly the LSAs that the packet counts, as far as they are
//! whole; what is written is read again, with the checksum that was written.
//!
//! ```text
//! let mut place = 28;
//! while let Some(found) = next_lsa(packet, place) {
//!     let (len, kind) = found?;
//!     if kind == ROUTER_LSA {
//!         let lsa = read(alloc, &packet[place..place + len])?;
//!     }
//!     place += len;
//! }
//! ```
#![tactic(auto)]

mod checksum;
mod laws;
mod lsa;
mod reading;
mod walking;
mod writing;

pub use laws::written_is_read;
pub use lsa::{
    Lsa, LsaLink, LsaRefusal, POINT_TO_POINT, ROUTER_LSA, STUB, TRANSIT, VIRTUAL, number_of_fault,
};
pub use rcp_model::LsaFault;
pub use reading::read;
pub use walking::next_lsa;
pub use writing::write;

#[cfg(test)]
mod tests;
