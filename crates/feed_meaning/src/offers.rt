//! The headline over the definitions: what was sent to a router, replayed, is what it is offered.

ghost use Rattle.std.specs.List.{AllByRecursion, All};
ghost use Rattle.std.specs.Prelude.{◌<◌, List};
ghost use Rattle.rcp_base.specs.Feed.{FeedRecord};
ghost use Rattle.rcp_base.specs.Roster.{RosterOf};
ghost use Rattle.feed_meaning.specs.Runs.{NumbersRise, Headline};

/// After every list of records in which the numbers of connections rise, for each connected router and each prefix that
/// isn't pending, the octets sent to the router so far, replayed, give at that prefix exactly what it is offered.
pub fn octets_sent_give_the_offer()
    ensures { (roster : RosterOf) (items : List FeedRecord) → AllByRecursion (λ item. All (λ o. o < 256) item.body) items
        → NumbersRise 0 items → Headline roster items }
{}
