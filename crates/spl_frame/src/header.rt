//! The header of a frame.
ghost use Rattle.std.specs.Prelude.{◌≡◌, ◌≤◌, length};
ghost use Rattle.spl_frame.specs.Frames.{first_frame, version_of, length_of};

use crate::fault::FrameFault;

/// How many bytes the body of a frame has at most.
pub const LONGEST_BODY: usize = 16_384;

fn version_of(bytes: &[u8]) -> u16
    requires { 2 ≤ length bytes.now }
    ensures { result ≡ version_of bytes.now }
{
    let (version, _) = bytes.split_at(2);
    u16::from_be_bytes([version[0], version[1]])
}

fn length_of(bytes: &[u8]) -> u32
    requires { 6 ≤ length bytes.now }
    ensures { result ≡ length_of bytes.now }
{
    let (_, after) = bytes.split_at(2);
    let (length, _) = after.split_at(4);
    u32::from_be_bytes([length[0], length[1], length[2], length[3]])
}

/// How many bytes the frame at the beginning has, once all of them are there.
pub(crate) fn first_frame(bytes: &[u8]) -> Result<Option<usize>, FrameFault>
    ensures { result ≡ first_frame bytes.now }
{
    if bytes.len() < 2 {
        return Ok(None);
    }
    let found = version_of(bytes);
    if found != 1 {
        return Err(FrameFault::BadVersion { found });
    }
    if bytes.len() < 6 {
        return Ok(None);
    }
    let length = length_of(bytes);
    if LONGEST_BODY < length as usize {
        return Err(FrameFault::TooLong { length });
    }
    let size = 6 + length as usize;
    if bytes.len() < size {
        return Ok(None);
    }
    Ok(Some(size))
}
