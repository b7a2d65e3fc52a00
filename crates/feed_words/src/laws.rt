//! Laws of texts.

ghost use Rattle.std.specs.Prelude.{◌≡◌, ◌≤◌, ◌^◌, ℕ, List, ◌++◌, length};
ghost use Rattle.rcp_base.specs.Octets.{AreOctets};
ghost use Rattle.feed_words.specs.Texts.{reading_of, whole};
ghost use Rattle.feed_words.specs.Joining.{EndsLine, octets_line};

/// A text that ends a line, and one after it, stand for the octets of both.
pub fn texts_join()
    ensures { (a b o p : List ℕ) → EndsLine a → reading_of a ≡ whole o → reading_of b ≡ whole p → reading_of (a ++ b) ≡ whole (o ++ p) }
{}

/// The line of any octets stands for them, and ends a line.
pub fn octets_are_read_again()
    ensures again { (octets : List ℕ) → AreOctets octets → length octets ≤ 2 ^ 18 → reading_of (octets_line octets) ≡ whole octets }
    ensures ends { (octets : List ℕ) → EndsLine (octets_line octets) }
{}
