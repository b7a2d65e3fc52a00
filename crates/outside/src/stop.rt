// A mark that stops the jobs that look at it.
ghost use Rattle.std.specs.Prelude.{◌≡◌, Bool, true, IsTrue};

use logbook::{Opening, Rule, Seen, Start, Word};
use std::marker::Model;

/// The rule of a mark: its word is 0, or 1 where the mark may be set.
struct OnlyWhereItMay;

impl Rule<bool, bool> for OnlyWhereItMay {
    ghost use Rattle.std.specs.Prelude.{[]};
    ghost use base.Fml.{ftrue};
    ghost use Rattle.outside.specs.Marks.{Hinted};

    ghost holds = { λ cells log. Unit {0} };

    ghost first = { [] };

    ghost hinted = { Hinted };

    ghost shows = { λ log. [] };

    ghost keeps = { λ names log. ftrue };

    ghost moves = { λ ask before after answer. Unit {0} };
}

/// The history begins with the fact whether the mark may be set.
struct Fixed;

impl Opening<bool, bool> for Fixed {
    ghost use Rattle.std.specs.Prelude.{[], ◌∷◌};

    ghost log = { λ count may. may ∷ [] };
}

/// A mark that threads share. Contracts see the fact whether it may be set, which is fixed when it is made. No field
/// that the running program can read holds the fact, so it is learned from `is_set` alone.
#[derive(Drop)]
pub struct StopMark {
    word: Word<bool, bool, OnlyWhereItMay>,
    seen: Seen<bool, bool, OnlyWhereItMay>,
}

impl Model for StopMark {
    ghost use Rattle.std.specs.Prelude.{◌≡◌, Bool, false, length, ◌<◌};
    ghost use Rattle.outside.specs.Marks.{may_be_set};

    ghost Value = { Bool };

    ghost view = { λ mark. may_be_set mark.seen.log };

    ghost invariant = { λ mark. (0 < length mark.seen.log) × (mark.word.tracked ≡ false) × (mark.word.book ≡ mark.seen.book) };
}

impl StopMark {
    /// A mark that isn't set, and that may be set or not.
    pub fn new(may_be_set: bool) -> StopMark
        ensures { result ≡ may_be_set }
    {
        let (seen, _) = Seen::open_row::<bool, Fixed>(&may_be_set, Start::alone(), 0);
        StopMark {
            word: Word::hint(&seen),
            seen,
        }
    }

    /// Sets the mark for good.
    pub fn set(&self)
        requires { IsTrue self.now }
    {
        self.word.compare_exchange_hint(0, 1, &self.seen);
    }

    /// Whether the mark is set. Only one that may be set ever is.
    pub fn is_set(&self) -> bool
        ensures { IsTrue result → IsTrue self.now }
    {
        let mut seen = self.seen.again();
        self.word.load_hint(&mut seen) != 0
    }
}
