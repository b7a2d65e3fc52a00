//! The jobs of a daemon, each on a thread of its own: sessions, the viewer of link state, a worker for each shard, and the acceptor of links.
//!
//! Model: what is given to the jobs is the roster, the times that the clock can give, and the mailboxes that the seats are named for. A session's job
//! leaves the link that it served and the session's end.
//!
//! A caller may rely on this: each job of a session leaves nothing, or a link that was as the net hands it out, what
//! [`serve_session`](session_run::serve_session) made of it, and the end of that; the acceptor counts exactly the links that the net handed out.
//!
//! That a job ends isn't promised, nor which link comes to which job.
//!
//! ```text
//! let accepting = run_all(rt, &shared, &mut jobs, &mut net);
//! ```
#![tactic(auto)]

mod jobs;
mod session;
mod shared;
mod viewer;
mod wiring;
mod worker;

pub use jobs::Job;
pub use session::{Served, SessionJob};
pub use shared::Shared;
pub use viewer::ViewerJob;
pub use wiring::run_all;
pub use worker::{TURNED, WorkerJob};
