//! How an audit over disks ends.

/// What an audit says of nodes.
#[derive(Clone, Copy, PartialEq, Eq)]
pub enum Verdict {
    /// No two of them clash.
    Agreed,
    /// Two of them clash.
    Disagreed,
}

/// Why an audit over disks has no verdict, or didn't write it whole.
#[derive(Clone, Copy, PartialEq, Eq)]
pub enum AuditRunFault {
    /// A disk of the node at this position failed.
    Disk { slot: u8 },
    /// The disks of the node at this position are neither blank nor a journal, and this is the place
    /// where they are no journal.
    NotAJournal { slot: u8, at: u64 },
    /// The sink failed.
    Write,
    /// Memory ran out.
    NoMemory,
}
