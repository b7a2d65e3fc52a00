//! The path from a router to its egress.

ghost use Rattle.std.specs.Prelude.{◌≡◌, Err, IfOk, IfErr};
ghost use Rattle.hop_walk.specs.declared.refusal.WalkError.TheVariants as error;
ghost use Rattle.hop_walk.specs.Hops.{network_at, IsAnswer, HasCause};

use crate::choosing::{candidates, connected_slot};
use crate::refusal::WalkError;
use crate::ways::{Ways, graph_of};
use decision::choose;
use feed_format::{WalkRefusal, WalkWhy};
use rcp_base::{NoMemory, Prefix, RouterId};
use rcp_model::Assigned;
use std::alloc::Global;

/// The routers through which packets for a prefix go: from `router` to the egress that it chooses, each next one the least by
/// ID that stands next on a shortest path to it. There are at most as many as the partition has, and every connected router
/// on any shortest path there chooses the same egress.
///
/// The first cause that stands is the answer where there is no path:
///
/// - `NotConnected` where the router isn't in the roster or has no session that is established;
/// - `Pending` where the prefix has to be decided anew;
/// - `NoRoute` where the router chooses no route;
/// - `ZeroCost` where an edge of cost 0 begins in the router's partition, with the least one by `from`, then by `to`.
///
/// `NoMemory` comes where there was no room for the graph, its costs, the candidates or the path. It takes one search for the
/// costs over the graph, one look at each member's announcement and the comparisons of the candidates, and for each hop the edges
/// that begin there.
pub fn walk<X: Assigned>(
    alloc: Global,
    platform: &X,
    router: RouterId,
    prefix: Prefix,
) -> Result<Vec<RouterId>, WalkError>
    ensures path { IfOk result (λ path. IsAnswer
        (network_at (record { as_number = X.as_number platform.now; members = X.members platform.now })
        (X.edges platform.now) (X.connected platform.now) (X.announced platform.now) (X.given platform.now) (X.pending platform.now) prefix)
        router path.items) }
    ensures refused { IfErr result (λ error. HasCause
        (network_at (record { as_number = X.as_number platform.now; members = X.members platform.now })
        (X.edges platform.now) (X.connected platform.now) (X.announced platform.now) (X.given platform.now) (X.pending platform.now) prefix)
        router prefix error) }
{
    let _law = platform.members();
    let Some(slot) = connected_slot(platform, router) else {
        return refused(WalkWhy::NotConnected { router });
    };
    if platform.is_pending(prefix) {
        return refused(WalkWhy::Pending { prefix });
    }
    let list = candidates(alloc, platform, slot, prefix)?;
    let Some(egress) = choose(slot, list.as_slice(), platform) else {
        return refused(WalkWhy::NoRoute);
    };
    let end = platform.router(egress);
    let graph = graph_of(alloc, platform)?;
    let ways = Ways::to(alloc, graph, end)?;
    if let Some(edge) = ways.least_free() {
        return refused(WalkWhy::ZeroCost {
            from: edge.from,
            to: edge.to,
        });
    }
    Ok(ways.path_from(alloc, router)?)
}

/// The answer that there is no path.
fn refused(why: WalkWhy) -> Result<Vec<RouterId>, WalkError>
    ensures { result ≡ Err (error.Refused (record { why = why })) }
{
    Err(WalkError::Refused(WalkRefusal { why }))
}
