//! How a stream of bytes is cut into frames, as laws of the definitions.
ghost use Rattle.std.specs.{Prelude.{◌≡◌, List, ℕ, []}, List.{flat_map, All}};
ghost use Rattle.spl_base.specs.Form.{IsBytes};
ghost use Rattle.spl_frame.specs.Frames.{frame, IsBody, Stream, IsStream, stream_of, frames_of};

/// A stream is frames and then a part of one, or frames and then a header with a fault. It is so
/// in one way only, the one in which it is read.
pub fn a_stream_is_read_one_way()
    ensures is { (bytes : List ℕ) → IsBytes bytes → IsStream bytes (stream_of bytes) }
    ensures only { (bytes : List ℕ) (s : Stream) → IsBytes bytes → IsStream bytes s → stream_of bytes ≡ s }
{}

/// The frames of bodies are read back as these bodies.
pub fn frames_are_read_back()
    ensures { (bodies : List (List ℕ)) → All IsBody bodies → frames_of (flat_map frame bodies) ≡ bodies }
{}
