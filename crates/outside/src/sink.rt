// Where octets go.
ghost use Rattle.std.specs.Prelude.{◌≡◌, ◌≢◌, ◌<◌, ◌≤◌, ◌^◌, List, ℕ, Option, [], Ok, take, length, IfOk, IfErr, OnOk, OnErr};
ghost use Rattle.outside.specs.Told.{Rose, NeverFalls, behind};

use crate::Failed;

/// A stream of octets that is written piece by piece, as standard output.
pub trait Sink {
    /// How often the sink has failed, a count of 64 bits that saturates.
    ghost faults: { Self → ℕ };

    /// The octets that were taken, where they are known.
    ghost taken: { Self → Option (List ℕ) };

    /// Takes a front of the piece, and answers how many octets it has.
    fn write(&mut self, piece: &[u8]) -> Result<usize, Failed>
        ensures within { IfOk result (λ count. count ≤ length piece.now) }
        ensures front { IfOk result (λ count. taken self.new ≡ behind (taken self.old) (take count piece.now)) }

        // To take nothing of a piece that isn't empty is a fault too.
        ensures nothing { result ≡ Ok 0 → piece.now ≢ [] → Rose (faults self.old) (faults self.new) }

        // A failure takes nothing, and comes only where the count of faults rose.
        ensures failed { OnErr result (taken self.new ≡ taken self.old) }
        ensures cause { OnErr result (Rose (faults self.old) (faults self.new)) }
        ensures never_falls { NeverFalls (faults self.old) (faults self.new) }
        ensures count_fits { faults self.new < 2 ^ 64 };
}

/// Writes the whole piece, in as many writes as the sink needs. `Err` has how many octets of its front went out,
/// and comes where a write failed or took nothing.
pub fn write_all<K: Sink>(sink: &mut K, piece: &[u8]) -> Result<(), (usize, Failed)>
    ensures all { OnOk result (K.taken sink.new ≡ behind (K.taken sink.old) piece.now) }
    ensures part { IfErr result (λ e. e.0 < length piece.now) }
    ensures front { IfErr result (λ e. K.taken sink.new ≡ behind (K.taken sink.old) (take e.0 piece.now)) }
    ensures cause { OnErr result (Rose (K.faults sink.old) (K.faults sink.new)) }
    ensures never_falls { NeverFalls (K.faults sink.old) (K.faults sink.new) }
{
    let mut done = 0;
    while done < piece.len() {
        let (_, rest) = piece.split_at(done);
        match sink.write(rest) {
            Ok(0) | Err(_) => return Err((done, Failed)),
            Ok(count) => done += count,
        }
    }
    Ok(())
}
