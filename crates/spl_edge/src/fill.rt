//! What a disk keeps of a write that no sync followed.

/// What stands, after a stop, where bytes were written since the last sync.
#[derive(Clone, Copy, Debug, PartialEq, Eq)]
pub enum Fill {
    /// The bytes and the length of the last sync.
    Old,
    /// The newest bytes.
    New,
    /// The newest length, with this byte at each place that was written.
    Byte(u8),
}
