//! What the jobs of sessions came to.

ghost use Rattle.std.specs.Prelude.{◌≡◌, ◌∷◌, [], length, map, All, Some, IfOk, IfSome, option_to_list};
ghost use Rattle.std.specs.List.{flat_map};
ghost use Rattle.outside.specs.Told.{NeverFalls, followed};
ghost use Rattle.rcpd_run.specs.Daemons.{IsReported, links_of, links_at};
ghost use Rattle.rcpd_run.specs.Ends.{sessions_in, count_sessions, IsRanked};

use daemon_jobs::{Job, Served, SessionJob};
use daemon_parts::push_at;
use outside::{Link, Net};
use rcp_base::NoMemory;
use session_report::place_in;
use session_serve::{EndWhy, SessionEnd};
use std::alloc::Global;

/// The ends of sessions in their order, and their links by their places in the report, with those of no router last.
#[derive(Drop)]
pub(crate) struct Ends<L> {
    pub(crate) ends: Vec<SessionEnd>,
    pub(crate) links: Vec<Vec<L>>,
}

/// The sessions of the jobs, in their order.
///
/// `NoMemory` comes where a session had no link, was stopped or found no memory, and where there is no room for the list.
pub(crate) fn sessions_of<L: Link>(
    alloc: Global,
    jobs: Vec<Job<L>>,
) -> Result<Vec<Served<L>>, NoMemory>
    ensures sessions { IfOk result (λ sessions. sessions.items ≡ sessions_in jobs.items) }
    ensures all { IfOk result (λ sessions. length sessions.items ≡ count_sessions jobs.items) }
    ensures reported { IfOk result (λ sessions. All (λ served. IsReported served.end.why) sessions.items) }
{
    let mut sessions = Vec::new(alloc);
    for job in jobs {
        if let Some(served) = session_in(job)? {
            sessions.push(served)?;
        }
    }
    Ok(sessions)
}

/// The session of a job, where it is that of a session. `NoMemory` where it had no link, was stopped or found no memory.
fn session_in<L: Link>(job: Job<L>) -> Result<Option<Served<L>>, NoMemory>
    ensures served { IfOk result (λ served. option_to_list served ≡ sessions_in (job ∷ [])) }
    ensures count { IfOk result (λ served. length (option_to_list served) ≡ count_sessions (job ∷ [])) }
    ensures reported { IfOk result (λ served. All (λ served. IsReported served.end.why) (option_to_list served)) }
{
    match job {
        Job::Session(job) => Ok(Some(reported(job)?)),
        Job::Viewer(_) | Job::Worker(_) => Ok(None),
    }
}

/// What the job of a session served. `NoMemory` where it had no link, was stopped or found no memory.
fn reported<L: Link>(job: SessionJob<L>) -> Result<Served<L>, NoMemory>
    ensures served { IfOk result (λ served. job.served ≡ Some served) }
    ensures reported { IfOk result (λ served. IsReported served.end.why) }
{
    let Some(served) = job.into_served() else {
        return Err(NoMemory);
    };
    match served.end.why {
        EndWhy::Stopped | EndWhy::NoMemory => Err(NoMemory),
        _ => Ok(served),
    }
}

/// The ends of sessions, and their links by their places in the report of a roster with so many routers.
pub(crate) fn ends_of<L: Link>(
    alloc: Global,
    routers: u16,
    sessions: Vec<Served<L>>,
) -> Result<Ends<L>, NoMemory>
    ensures ends { IfOk result (λ ends. ends.ends.items ≡ map (λ served. served.end) sessions.items) }
    ensures links { IfOk result (λ ends. IsRanked routers (map (λ row. row.items) ends.links.items) sessions.items) }
{
    let mut ends = Vec::new(alloc);
    let mut links = empty_rows(alloc, routers)?;
    for served in sessions {
        let Served { link, end } = served;
        push_at(&mut links, usize::from(place_in(routers, end.slot)), link)?;
        ends.push(end)?;
    }
    Ok(Ends { ends, links })
}

/// A row for each router and one more, with no link in it.
fn empty_rows<L: Link>(alloc: Global, routers: u16) -> Result<Vec<Vec<L>>, NoMemory>
    ensures { IfOk result (λ rows. IsRanked routers (map (λ row. row.items) rows.items) []) }
{
    let mut rows = Vec::new(alloc);
    for _ in 0..=routers {
        rows.push(Vec::new(alloc))?;
    }
    Ok(rows)
}

/// Hands the links of rows back, in their order.
pub(crate) fn hand_back<N: Net>(net: &mut N, rows: Vec<Vec<N::L>>)
    ensures back { IfSome (N.handed_back net.new) (λ links. Some links ≡ followed (N.handed_back net.old) (flat_map (λ row. row) (map (λ row. row.items) rows.items))) }
    ensures handed_out { N.handed_out net.new ≡ N.handed_out net.old }
    ensures never_falls { NeverFalls (N.faults net.old) (N.faults net.new) }
{
    for row in rows {
        hand_row_back(net, row);
    }
}

/// Hands the links of a row back, in their order.
fn hand_row_back<N: Net>(net: &mut N, row: Vec<N::L>)
    ensures back { IfSome (N.handed_back net.new) (λ links. Some links ≡ followed (N.handed_back net.old) row.items) }
    ensures handed_out { N.handed_out net.new ≡ N.handed_out net.old }
    ensures never_falls { NeverFalls (N.faults net.old) (N.faults net.new) }
{
    for link in row {
        net.hand_back(link);
    }
}
