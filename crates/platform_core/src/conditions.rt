//! The conditions of `step`, as a test for callers with no feed reader before them.

ghost use Rattle.std.specs.Prelude.{◌≡◌, ◌≤◌, ◌<◌, true, length, nat_lt};
ghost use Rattle.std.specs.List.{AllByRecursion, list_all};
ghost use Rattle.rcp_base.specs.Feed.{has_length, begins, is_time, moment_of};
ghost use Rattle.platform_core.specs.Conditions.{MayStep};

use crate::connections::Connections;
use crate::platform::Platform;
use crate::sessions::{Connection, read_time};
use feed_format::{Kind, Record};

impl Platform {
    /// Whether `step` takes this record: exactly where its body has the length of its kind, a connection that it opens has a number above
    /// those of the open ones, and its time isn't below the latest. The records of a feed reader meet this. It looks at each open connection.
    pub fn may_step(&self, item: &Record) -> bool
        ensures body { result ≡ true → has_length item.now.kind (length item.now.body) ≡ true }
        ensures number { result ≡ true → begins item.now.kind ≡ true → AllByRecursion (λ entry. entry.0 < item.now.source) self.now.seen.sessions }
        ensures time { result ≡ true → is_time item.now.kind ≡ true → self.now.seen.time ≤ moment_of item.now.body }
        ensures exact { MayStep self.now.seen item.now → result ≡ true }
    {
        item.has_length()
            && match item.kind {
                Kind::Ready | Kind::Raw => are_below(&self.connections, item.source),
                Kind::Time => self.time <= read_time(&item.body),
                _ => true,
            }
    }
}

/// Whether all open connections have numbers below this one.
fn are_below(connections: &Connections, number: u32) -> bool
    ensures below { result ≡ true → AllByRecursion (λ entry. entry.0 < number) connections.now.sessions }
    ensures exact { AllByRecursion (λ entry. entry.0 < number) connections.now.sessions → result ≡ true }
{
    all_below(&connections.connections, number)
}

fn all_below(connections: &[Connection], number: u32) -> bool
    ensures { result ≡ list_all (λ c. nat_lt c.number number) connections.now }
{
    connections
        .iter()
        .all(|connection| connection.number < number)
}
