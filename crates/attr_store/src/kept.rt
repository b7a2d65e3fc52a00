//! A route that is kept.

use rcp_model::Route;

/// A route that is kept, and how many use it.
#[derive(Debug, Drop)]
pub struct KeptRoute {
    pub route: Route,
    pub uses: u32,
}
