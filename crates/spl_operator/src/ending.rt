//! How the program ends.
use crate::nodes_file::Exchanged;
use crate::owners::Stray;
use spl_base::{NodeId, Piece};
use spl_cli::Status;
use spl_journal::JournalFault;
use spl_lint::{Cause, Wanted};
use spl_ports::OpenFault;
use spl_serve::ServeFault;
use std::alloc::{AllocError, Global};

/// How the program ended (docs/RULES.md, Serving).
#[derive(Drop)]
pub(crate) enum Ending {
    /// As a run of a schedule may end, with the same status and line.
    As(Status),
    /// A node was asked to stop.
    Stopped { node: NodeId },
    /// The words aren't a command.
    Usage,
    /// The registry lacks the node.
    Unknown,
    /// The disks of the node are blank, and it isn't its first start.
    Blank { node: NodeId },
    /// The files in the folder are of other nodes than the registry's, by the list beside them.
    Exchanged(Exchanged),
    /// Likewise, by what a journal binds.
    Stray(Stray),
    /// The endpoint of this node can't be had.
    Endpoint { node: NodeId },
    /// The socket in the folder can't be had.
    Socket,
    /// Nobody serves the folder.
    NoNode,
    /// The node went away before it answered.
    Gone,
    /// An answer didn't begin with `ok`; why, where it is in words.
    Refused { why: Option<&'static str> },
    /// This line of a schedule is the first bad one.
    BadLine { number: u32, cause: Cause },
    /// The proof isn't accepted, which is written already.
    NotAccepted,
    /// A check has four words.
    CheckUsage,
    /// A word isn't one of a check, which has this in its place.
    BadWord { wanted: Wanted },
    /// The bytes aren't a proof, from this place on.
    NotProof { at: usize },
}

// A text about a node.
fn node_text(
    alloc: Global,
    before: &[u8],
    node: &NodeId,
    behind: &[u8],
) -> Result<Piece, AllocError> {
    let mut text = Vec::from_slice(alloc, before)?;
    text.extend_from_slice(node.bytes())?;
    text.extend_from_slice(behind)?;
    Piece::from(alloc, &text)
}

// A text about a line of a schedule.
fn line_text(alloc: Global, number: u32, cause: &Cause) -> Result<Piece, AllocError> {
    let wanted = cause.wanted.text();
    let text = match cause.column {
        Some(column) => {
            format!(in alloc; "bad schedule: line {number}, column {column}: {wanted} wanted")
        }
        None => format!(in alloc; "bad schedule: line {number}: {wanted} wanted"),
    }?;
    Piece::from(alloc, text.as_bytes())
}

impl Ending {
    pub(crate) fn memory() -> Ending {
        Ending::As(Status::NoMemory)
    }

    pub(crate) fn is_memory(&self) -> bool {
        matches!(self, Ending::As(Status::NoMemory))
    }

    /// How a node ends whose journal can't be made or read.
    pub(crate) fn of_journal(node: NodeId, fault: JournalFault) -> Ending {
        match fault {
            JournalFault::NotAJournal { at } => Ending::As(Status::NotAJournal { node, at }),
            JournalFault::NoMemory => Ending::memory(),
            _ => Ending::As(Status::DiskFault { node }),
        }
    }

    /// How a node ends that gets no sockets.
    pub(crate) fn of_open(fault: OpenFault) -> Ending {
        match fault {
            OpenFault::Endpoint(node) => Ending::Endpoint { node },
            OpenFault::Socket => Ending::Socket,
            OpenFault::System => Ending::As(Status::LinkFault),
            OpenFault::NoMemory => Ending::memory(),
        }
    }

    /// How a node ends that served.
    pub(crate) fn of_serve(node: NodeId, fault: ServeFault) -> Ending {
        match fault {
            ServeFault::Disk => Ending::As(Status::DiskFault { node }),
            ServeFault::Ports => Ending::As(Status::LinkFault),
            ServeFault::NoMemory => Ending::memory(),
        }
    }

    /// The exit status.
    pub(crate) fn code(&self) -> u8 {
        match self {
            Ending::As(status) => status.code(),
            Ending::Stopped { .. } => 0,
            Ending::Usage | Ending::Unknown | Ending::NotAccepted => 1,
            Ending::CheckUsage | Ending::BadWord { .. } | Ending::NotProof { .. } => 2,
            Ending::BadLine { .. } => 3,
            Ending::Exchanged(_) | Ending::Stray(_) => 7,
            Ending::Endpoint { .. } | Ending::Socket | Ending::NoNode | Ending::Gone => 8,
            Ending::Blank { .. } => 13,
            Ending::Refused { .. } => 15,
        }
    }

    /// Whether standard error has a line about it.
    pub(crate) fn is_told(&self) -> bool {
        !matches!(self, Ending::As(Status::Ok) | Ending::NotAccepted)
    }

    /// The line for standard error, without its line feed.
    pub(crate) fn text(&self, alloc: Global) -> Result<Piece, AllocError> {
        match self {
            Ending::As(status) => status.text(alloc),
            Ending::Stopped { node } => node_text(alloc, b"stopped ", node, b""),
            Ending::Usage => Piece::from(
                alloc,
                b"usage: splinter serve REGISTRY NODE DIR [new] or ask DIR WORD .. or ask DIR or status DIR or look REGISTRY DIR WORD .. or lint REGISTRY SCHEDULE or check ROOT ADDRESS CLAIM HEX",
            ),
            Ending::Unknown => Piece::from(alloc, b"the registry has no such node"),
            Ending::Blank { node } => node_text(
                alloc,
                b"disk of ",
                node,
                b" is not a journal at 0: it is blank, and a first start ends with the word new",
            ),
            Ending::Exchanged(exchanged) => exchanged.text(alloc),
            Ending::Stray(stray) => stray.text(alloc),
            Ending::Endpoint { node } => node_text(
                alloc,
                b"endpoint of ",
                node,
                b" can't be had: it is in use, isn't found, or is no address or name with a port",
            ),
            Ending::Socket => Piece::from(alloc, b"the socket in the folder can't be made"),
            Ending::NoNode => Piece::from(alloc, b"nobody serves the folder"),
            Ending::Gone => Piece::from(alloc, b"the node went away before it answered"),
            Ending::Refused { why: Some(why) } => {
                let text = format!(in alloc; "refused: {why}")?;
                Piece::from(alloc, text.as_bytes())
            }
            Ending::Refused { why: None } => Piece::from(alloc, b"refused"),
            Ending::BadLine { number, cause } => line_text(alloc, *number, cause),
            Ending::NotAccepted => Piece::from(alloc, b""),
            Ending::CheckUsage => {
                Piece::from(alloc, b"usage: splinter check ROOT ADDRESS CLAIM HEX")
            }
            Ending::BadWord { wanted } => {
                let text = format!(in alloc; "bad word: {} wanted", wanted.text())?;
                Piece::from(alloc, text.as_bytes())
            }
            Ending::NotProof { at } => {
                let text = format!(in alloc; "not a proof, from its byte {at} on")?;
                Piece::from(alloc, text.as_bytes())
            }
        }
    }
}
