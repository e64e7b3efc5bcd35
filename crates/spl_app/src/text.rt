//! A text in memory as a source.
ghost use Rattle.std.specs.Prelude.{◌≡◌, ◌≤◌, Some, length, take, drop};

use spl_base::Piece;
use spl_edge::{DeviceError, Source};

/// A text that is read. It never fails.
#[derive(Drop)]
pub struct TextSource {
    text: Piece,
    at: usize,
    ghost within: { at ≤ length text },
}

impl TextSource {
    /// A source that gave nothing yet.
    pub fn new(text: Piece) -> TextSource
        ensures text { result.text ≡ text }
        ensures at { result.at ≡ 0 }
    {
        TextSource { text, at: 0 }
    }
}

impl Source for TextSource {
    ghost view = { λ s. record { gave = take s.at s.text; left = Some (drop s.at s.text); faults = 0 } };

    fn read(&mut self, buf: &mut [u8]) -> Result<usize, DeviceError> {
        let bytes = self.text.bytes();
        let count = buf.len().min(bytes.len() - self.at);
        buf[..count].copy_from_slice(&bytes[self.at..self.at + count]);
        self.at += count;
        Ok(count)
    }
}
