//! The vocabulary of the route control server: routes, edges, changes and events.
#![tactic(auto)]

mod assigned;
mod costs;
mod event;
pub mod laws;
mod lsa_fault;
mod octets;
mod offer;
pub mod rcs_mail;
mod route;
mod route_no;

pub use assigned::Assigned;
pub use costs::Costs;
pub use event::{Change, Event};
pub use lsa_fault::LsaFault;
pub use octets::Octets;
pub use offer::Offer;
pub use rcp_base::Edge;
pub use route::Route;
pub use route_no::RouteNo;
