//! Lines of words.
use std::alloc::AllocError;

/// The words as a line.
pub(crate) fn joined(rt: &HostRuntime, words: &[String]) -> Result<Vec<u8>, AllocError> {
    let mut line = Vec::new(rt.alloc());
    for word in words {
        if !line.is_empty() {
            line.push(b' ')?;
        }
        line.extend_from_slice(word.as_bytes())?;
    }
    Ok(line)
}
