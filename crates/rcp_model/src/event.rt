use crate::route::Route;
use rcp_base::{Edge, Prefix, Slot};

/// What one UPDATE says of one prefix: a route that is announced, or `None` for one that is withdrawn.
#[derive(Debug, Drop)]
pub struct Change {
    pub slot: Slot,
    pub prefix: Prefix,
    pub route: Option<Route>,
}

/// A step of the route control server.
#[derive(Debug, Drop)]
pub enum Event {
    /// The router's session is established.
    Up(Slot),
    /// The router's session has ended.
    Down(Slot),
    /// A router announces or withdraws a prefix.
    Change(Change),
    /// The interior network has these links.
    Links(Vec<Edge>),
    /// A pending prefix is decided for each router.
    Work(Prefix),
}
