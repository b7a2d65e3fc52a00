//! The generated feed is a feed by the definitions: above `feed_make`, which writes it, and the definitions of feeds.
//!
//! Model: there is none. The public function is a law with an empty body. Nothing stands on this crate, so that `feed_make` needs no more
//! than the codecs that it writes with.
//!
//! ```text
//! ensures { (number : ℕ) → feed_meaning (feed_octets number) ≡ made_meaning number }
//! ```
#![tactic(auto)]

ghost use Rattle.std.specs.Prelude.{◌≡◌, ℕ};
ghost use Rattle.feed_meaning.specs.WholeFeeds.{feed_meaning};
ghost use Rattle.feed_make.specs.Feeds.{feed_octets};
ghost use Rattle.make_laws.specs.Made.{made_meaning};

/// The octets of every generated feed come, by the definitions, to a roster of 400 routers and 8 shards, and to exactly the records
/// after it, up to Z. No record has a fault, neither of its frame nor by the roster; no line of the roster's text has one; and nothing
/// is left after Z.
pub fn generated_feeds_have_no_fault()
    ensures { (number : ℕ) → feed_meaning (feed_octets number) ≡ made_meaning number }
{}
