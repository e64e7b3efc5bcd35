//! Frames on a stream of bytes.
#![tactic(auto)]

mod fault;
mod framer;
mod header;
mod laws;
mod stream;

pub use fault::FrameFault;
pub use framer::{Framer, put_header, split_frame, write_frame};
pub use header::LONGEST_BODY;
pub use laws::{a_stream_is_read_one_way, frames_are_read_back};
pub use stream::frames_in;
