//! Filling a buffer from a source.

ghost use Rattle.std.specs.Prelude.{◌≡◌, ◌<◌, All, length, Err, IfOk, IfErr, OnOk, OnErr, IfSome};
ghost use Rattle.outside.specs.Told.{Rose, NeverFalls, in_front};
ghost use Rattle.rcp_base.specs.declared.kinds.FeedWhy.TheVariants as why;
ghost use Rattle.feed_format.specs.declared.taking.Stop.TheVariants as stop;
ghost use Rattle.feed_format.specs.Taking.{TakesFewer, TakesUpTo, IsShortOrRead, IsNoOtherFault};

use outside::Source;
use rcp_base::{FeedWhy, NoMemory};
use std::alloc::{AllocError, Global};

/// Why a record could not be taken.
#[derive(Clone, Copy, Debug, PartialEq, Eq)]
pub enum Stop {
    Fault(FeedWhy),
    Read,
    NoMemory,
}

impl From<FeedWhy> for Stop {
    ghost from_gives = { λ fault stopped. stopped ≡ stop.Fault fault };

    fn from(why: FeedWhy) -> Stop {
        Stop::Fault(why)
    }
}

impl From<AllocError> for Stop {
    ghost from_gives = { λ _ stopped. stopped ≡ stop.NoMemory };

    fn from(_e: AllocError) -> Stop {
        Stop::NoMemory
    }
}

impl From<NoMemory> for Stop {
    ghost from_gives = { λ _ stopped. stopped ≡ stop.NoMemory };

    fn from(_e: NoMemory) -> Stop {
        Stop::NoMemory
    }
}

/// Fills the buffer with the next octets. `Truncated` where the input ends before.
pub fn read_exactly<S: Source>(source: &mut S, buf: &mut [u8]) -> Result<(), Stop>
    ensures ok { OnOk result (S.left source.old ≡ in_front buf.new (S.left source.new)) }
    ensures octets { All (λ octet. octet < 256) buf.new }
    ensures short { result ≡ Err (Stop.Fault why.Truncated) → IfSome (S.left source.old) (λ octets. length octets < length buf.old) }
    ensures err { OnErr result (TakesFewer (length buf.old) (S.left source.old) (S.left source.new)) }
    ensures cause { IfErr result IsShortOrRead }
    ensures read { result ≡ Err Stop.Read → Rose (S.faults source.old) (S.faults source.new) }
    ensures never_falls { NeverFalls (S.faults source.old) (S.faults source.new) }
{
    let mut done = 0;
    while done < buf.len() {
        let (_, rest) = buf.split_at_mut(done);
        match source.read(rest) {
            Ok(0) => return Err(Stop::Fault(FeedWhy::Truncated)),
            Ok(count) => done += count,
            Err(_) => return Err(Stop::Read),
        }
    }
    Ok(())
}

/// So many next octets, as a list of their own. The room is found before an octet is taken, and none is wanted for no
/// octets.
pub fn read_body<S: Source>(alloc: Global, source: &mut S, len: usize) -> Result<Vec<u8>, Stop>
    ensures len { IfOk result (λ body. length body.items ≡ len) }
    ensures ok { IfOk result (λ body. S.left source.old ≡ in_front body.items (S.left source.new)) }
    ensures octets { IfOk result (λ body. All (λ octet. octet < 256) body.items) }
    ensures short { result ≡ Err (Stop.Fault why.Truncated) → IfSome (S.left source.old) (λ octets. length octets < len) }
    ensures err { OnErr result (TakesUpTo len (S.left source.old) (S.left source.new)) }
    ensures cause { IfErr result IsNoOtherFault }
    ensures read { result ≡ Err Stop.Read → Rose (S.faults source.old) (S.faults source.new) }
    ensures less { result ≡ Err Stop.Read → TakesFewer len (S.left source.old) (S.left source.new) }
    ensures room { result ≡ Err Stop.NoMemory → (0 < len) × (S.left source.new ≡ S.left source.old) }
    ensures never_falls { NeverFalls (S.faults source.old) (S.faults source.new) }
{
    if len == 0 {
        return Ok(Vec::new(alloc));
    }
    let mut body = vec![in alloc; 0; len]?;
    read_exactly(source, &mut body)?;
    Ok(body)
}
