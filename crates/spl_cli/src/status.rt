//! How a run ends.
ghost use Rattle.std.specs.Prelude.{◌≡◌, ◌++◌, codes, decimal, IfOk};
ghost use Rattle.spl_cli.specs.Statuses.{registry_fault_text};

use spl_base::{Boxed, NodeId, Piece};
use spl_registry::RegistryFault;
use std::alloc::{AllocError, Global};

/// How a run ended (docs/RULES.md, Statuses).
#[derive(Drop)]
pub enum Status {
    /// Registry and schedule were read to their ends, and every answer was written.
    Ok,
    /// The words aren't a command.
    Usage,
    /// The registry's bytes have this fault. Running out of memory is none of them.
    BadRegistry(RegistryFault),
    /// This is the first line that a schedule may not have.
    BadSchedule {
        line: u32,
    },
    /// With a line the run would have more than the limit of this number allows: 1 is events, 2 is
    /// stops.
    TooMany {
        which: u8,
    },
    /// The registry or the schedule could not be read.
    ReadFault,
    /// The answers could not be written.
    WriteFault,
    /// A disk of this node failed, or that of the process of this name.
    DiskFault {
        node: NodeId,
    },
    /// A link between nodes failed.
    LinkFault,
    /// Where a message was to go from one of these nodes to the other, these bytes were sent and others came.
    Lied {
        from: NodeId,
        to: NodeId,
        sent: Boxed<Piece>,
        got: Boxed<Piece>,
    },
    /// A disk of this node holds bytes, where a run over links begins that goes on from none.
    NotBlank {
        node: NodeId,
    },
    /// The registry or the schedule has too many bytes.
    TooLong,
    /// Memory ran out.
    NoMemory,
    /// The bytes of a disk of this node, with which it was to come up, or which were audited, are no journal from this place on.
    NotAJournal {
        node: NodeId,
        at: u64,
    },
    /// The nodes that were audited disagree, and where they do was written.
    Disagreed,
}

// The line for a registry that has this fault.
fn fault_text(alloc: Global, fault: &RegistryFault) -> Result<Piece, AllocError>
    ensures { IfOk result (λ p. p ≡ codes "bad registry: " ++ registry_fault_text fault.now) }
{
    let text = match fault {
        RegistryFault::NotToml => format!(in alloc; "bad registry: not TOML"),
        RegistryFault::BadEntry { index } => format!(in alloc; "bad registry: entry {index}"),
        RegistryFault::Repeated { index } => format!(in alloc; "bad registry: repeated {index}"),
        RegistryFault::TooMany { count } => format!(in alloc; "bad registry: {count} entries"),
        RegistryFault::NoMemory => format!(in alloc; "bad registry: out of memory"),
    }?;
    Piece::from(alloc, text.as_bytes())
}

// The line that says this of the disks of a node.
fn disk_text(alloc: Global, node: &NodeId, said: &[u8]) -> Result<Piece, AllocError>
    ensures { IfOk result (λ p. p ≡ codes "disk of " ++ node.now ++ said.now) }
{
    let mut text = Vec::new(alloc);
    text.extend_from_slice(b"disk of ")?;
    text.extend_from_slice(node.bytes())?;
    text.extend_from_slice(said)?;
    Piece::from(alloc, &text)
}

// The line for a disk of this node that is no journal from this place on.
fn journal_text(alloc: Global, node: &NodeId, at: u64) -> Result<Piece, AllocError>
    ensures { IfOk result (λ p. p ≡ codes "disk of " ++ node.now ++ codes " is not a journal at " ++ decimal at) }
{
    let place = format!(in alloc; " is not a journal at {at}")?;
    disk_text(alloc, node, place.as_bytes())
}

// The line for a link that lied between these nodes.
fn lie_text(alloc: Global, from: &NodeId, to: &NodeId) -> Result<Piece, AllocError>
    ensures { IfOk result (λ p. p ≡ codes "link from " ++ from.now ++ codes " to " ++ to.now ++ codes " lied") }
{
    let mut text = Vec::new(alloc);
    text.extend_from_slice(b"link from ")?;
    text.extend_from_slice(from.bytes())?;
    text.extend_from_slice(b" to ")?;
    text.extend_from_slice(to.bytes())?;
    text.extend_from_slice(b" lied")?;
    Piece::from(alloc, &text)
}

impl Status {
    ghost use Rattle.spl_cli.specs.Statuses.{code_of, status_message};

    /// The exit status.
    pub fn code(&self) -> u8
        ensures { result ≡ code_of self.now }
    {
        match self {
            Status::Ok => 0,
            Status::Usage => 1,
            Status::BadRegistry(_) => 2,
            Status::BadSchedule { .. } => 3,
            Status::TooMany { .. } => 4,
            Status::ReadFault => 5,
            Status::WriteFault => 6,
            Status::DiskFault { .. } => 7,
            Status::LinkFault => 8,
            Status::Lied { .. } => 9,
            Status::NotBlank { .. } => 10,
            Status::TooLong => 11,
            Status::NoMemory => 12,
            Status::NotAJournal { .. } => 13,
            Status::Disagreed => 14,
        }
    }

    /// The line for standard error, without its line feed.
    pub fn text(&self, alloc: Global) -> Result<Piece, AllocError>
        ensures { IfOk result (λ p. p ≡ status_message self.now) }
    {
        match self {
            Status::Ok => Piece::from(alloc, b""),
            Status::Usage => Piece::from(
                alloc,
                b"usage: splinter replay REGISTRY SCHEDULE or links REGISTRY SCHEDULE DIR or gen N SEED or trace REGISTRY SCHEDULE or resume REGISTRY SCHEDULE DIR or audit REGISTRY DIR or paxos MEMBERS F SCHEDULE",
            ),
            Status::BadRegistry(fault) => fault_text(alloc, fault),
            Status::BadSchedule { line } => {
                let text = format!(in alloc; "bad schedule: line {line}")?;
                Piece::from(alloc, text.as_bytes())
            }
            Status::TooMany { which: 1 } => Piece::from(alloc, b"too many events"),
            Status::TooMany { .. } => Piece::from(alloc, b"too many stops"),
            Status::ReadFault => Piece::from(alloc, b"read failed"),
            Status::WriteFault => Piece::from(alloc, b"write failed"),
            Status::DiskFault { node } => disk_text(alloc, node, b" failed"),
            Status::LinkFault => Piece::from(alloc, b"link failed"),
            Status::Lied { from, to, .. } => lie_text(alloc, from, to),
            Status::NotBlank { node } => disk_text(alloc, node, b" not blank"),
            Status::TooLong => Piece::from(alloc, b"input too long"),
            Status::NoMemory => Piece::from(alloc, b"out of memory"),
            Status::NotAJournal { node, at } => journal_text(alloc, node, *at),
            Status::Disagreed => Piece::from(alloc, b"journals disagree"),
        }
    }
}
