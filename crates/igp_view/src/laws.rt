//! Laws of streams of link state. Each is the contract of a function that does nothing.

ghost use Rattle.std.specs.Prelude.{◌≡◌, ℕ, ◌++◌, List};
ghost use Rattle.std.specs.Option.{option_or};
ghost use Rattle.rcp_model.specs.LinkState.{LinkState};
ghost use Rattle.igp_view.specs.Streams.{Stream, stream_after, lost_by, state_after};

/// Octets that come at one time in two pieces leave what they leave in one: the stream, the place where the framing is lost, which
/// one of the pieces has, and the link state.
pub fn any_cut()
    ensures stream { (stream : Stream) (first second : List ℕ) →
        stream_after (stream_after stream first) second ≡ stream_after stream (first ++ second) }
    ensures lost { (stream : Stream) (first second : List ℕ) →
        lost_by stream (first ++ second) ≡ option_or (lost_by stream first) (lost_by (stream_after stream first) second) }
    ensures state { (area now : ℕ) (stream : Stream) (first second : List ℕ) (state : LinkState) →
        state_after area now (stream_after stream first) second (state_after area now stream first state)
        ≡ state_after area now stream (first ++ second) state }
{}
