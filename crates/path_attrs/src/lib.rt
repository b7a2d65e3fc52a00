//! The path attributes of BGP UPDATEs: read with every fault that a list of them can have, written in one form, and made
//! into the route that the decision process compares (RFC 4271, sections 4.3, 5 and 6.3, and RFC 1997).
//!
//! Contracts see [`Attrs`] as a list of attributes in order of type, each with its flags, its type and the octets of its
//! value: those that are sent on, with the flags that they are sent on with. AS numbers have two octets.
//!
//! A caller may rely on this: [`read`] answers attributes only where the octets have no fault, and a fault only where it
//! is the first one in the order of RFC 4271, section 6.3, with the octets that a NOTIFICATION names. It answers that
//! there is no memory only for an attribute that is sent on, and never in place of a fault of it or of one in front of it.
//! [`write`] gives the canonical octets, and [`route`] every field of the route. What is written is read again, with the
//! same octets and the same route ([`written_is_read_again`]). Writing takes no memory. [`path_text`] is the text of the
//! path among the octets of a route.
//!
//! ```text
//! let attrs = read(alloc, section, has_nlri)?; // or AttrRefusal::Fault, the first one, or AttrRefusal::NoMemory
//! let mut out = [0; 8192];
//! let len = write(&attrs, &mut out);
//! if has_route(&attrs) {
//!     let route = route(alloc, &attrs, 65000)?;
//! }
//! ```
#![tactic(auto)]

mod aggregator;
mod attrs;
mod communities;
mod flags;
mod header;
mod laws;
mod numbers;
mod origin;
mod path;
mod reading;
mod refusal;
mod routes;
mod table;
mod text;
mod unrecognised;
mod value;
mod writing;

pub use attrs::{Attrs, has_route};
pub use laws::written_is_read_again;
pub use reading::read;
pub use refusal::AttrRefusal;
pub use routes::route;
pub use text::path_text;
pub use writing::write;

#[cfg(test)]
mod tests;
