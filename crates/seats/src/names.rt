//! Which mailboxes belong to each slot.

use std::marker::Brand;

/// Names the mailboxes of the seats of one book. It has no calls: its facts are what everyone who shares the book agrees on,
/// so that the seats that come out of it are known to have the mailboxes of those that went in.
pub trait SeatNames {
    ghost use Rattle.std.specs.Prelude.{ℕ, List};
    ghost use Rattle.atomic_table.specs.Seated.{TableId};

    /// The mailboxes that the seat of a slot puts to, in the order of shards.
    ghost shard_mailboxes: { ℕ → List TableId };

    /// The mailbox that the seat of a slot takes offers from.
    ghost offer_mailbox: { ℕ → TableId };

    /// How many places the book has.
    ghost places: { ℕ };
}

impl SeatNames for Brand {
    ghost use Rattle.std.specs.Prelude.{[]};
    ghost use Rattle.seats.specs.Names.{no_mailbox};

    ghost shard_mailboxes = { λ slot. [] };

    ghost offer_mailbox = { λ slot. no_mailbox };

    ghost places = { 0 };
}
