//! Room for the octets of a message: an array that is there, or a vector with capacity for them.
//!
//! A message is put piece after piece, each after the octets in front. Contracts see the octets that stand in the room, how many
//! there may be, and where the next piece may be put: in an array anywhere, in a vector at its end. So a vector is filled
//! without being cleared before, and one function writes a message for both.
//!
//! A caller may rely on this: `put` always puts the whole piece, takes no memory, and leaves the octets in front as they were.
//!
//! ```text
//! let mut message = Vec::with_capacity(alloc, 21)?;
//! let at = message.put(0, &header);
//! message.put(at, &[code, subcode]);
//! ```
#![tactic(auto)]

ghost use Rattle.std.specs.Prelude.{◌≡◌, ◌≤◌, ◌+◌, ◌++◌, ℕ, List, length, take};

#[cfg(test)]
mod tests;

/// Room for octets that are put one after another.
pub trait Room {
    /// The octets that stand in it.
    ghost octets: { Self → List ℕ };

    /// How many octets there is room for.
    ghost size: { Self → ℕ };

    /// A piece may be put after the first so many octets.
    ghost is_place: { Self → ℕ → Type 0 };

    /// Puts a piece after the first `at` octets, and returns where it ends. It takes no memory, and the time of a copy.
    fn put(&mut self, at: usize, piece: &[u8]) -> usize
        requires place { is_place self.old at }
        requires room { at + length piece.now ≤ size self.old }
        ensures end { result ≡ at + length piece.now }
        ensures octets { take result (octets self.new) ≡ take at (octets self.old) ++ piece.now }
        ensures place { is_place self.new result }
        ensures size { size self.old ≤ size self.new };
}

impl<const N: usize> Room for [u8; N] {
    ghost use Rattle.std.specs.Prelude.{length};

    ghost octets = { λ room. room };

    ghost size = { λ room. length room };

    ghost is_place = { λ room at. at ≤ length room };

    fn put(&mut self, at: usize, piece: &[u8]) -> usize {
        let end = at + piece.len();
        let octets = &mut self[..];
        octets[at..end].copy_from_slice(piece);
        end
    }
}

impl Room for Vec<u8> {
    ghost use Rattle.std.specs.Prelude.{◌≡◌, length};
    ghost use Rattle.std.specs.Vec.{vec_capacity};

    ghost octets = { λ room. room.items };

    ghost size = { λ room. vec_capacity room };

    ghost is_place = { λ room at. at ≡ length room.items };

    fn put(&mut self, at: usize, piece: &[u8]) -> usize {
        if self.extend_from_slice(piece).is_err() {
            unreachable!();
        }
        at + piece.len()
    }
}
