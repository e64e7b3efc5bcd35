//! Runs a schedule of Paxos Commit.
ghost use Rattle.std.specs.{Prelude.{◌≡◌, ◌<◌, ◌≤◌, Err, ℕ, length}, Io.KnownBytes.Consumes};
ghost use Rattle.spl_acceptor.specs.declared.message.Name.{Name};
ghost use Rattle.spl_edge.specs.{Devices.bench, Sources.given};
ghost use Rattle.spl_paxos.specs.Lines.{name_text};
ghost use Rattle.spl_paxos_run.specs.{Run.paxos_devices, Paxos.{CameOfGroup, status_of}};
ghost use Rattle.spl_node.specs.Benches.{AllUnarmed, NoneForgotten, images, AreBlank, images_at, AllUnpicked};

use crate::{PaxosEnd, PaxosFault, run_paxos};
use spl_acceptor::{ACCEPTOR, Group, MEMBER, Name};
use spl_base::NodeId;
use spl_cli::Status;
use spl_edge::{Pair, Sink, Source, StopDisk};
use std::alloc::Global;

// The name of a process as the id of a node.
#[tactic(auto, using(std::proofs::lemmas::Fmt::decimal_digit))]
fn id_of(name: Name) -> NodeId
    requires { name.number < 10 }
    ensures { result ≡ name_text name }
{
    let letter = match name.kind {
        MEMBER => b'm',
        ACCEPTOR => b'c',
        _ => b'l',
    };
    NodeId::read(&[letter, b'0' + name.number]).unwrap()
}

// The status of a run that ended so.
fn status_of(ended: Result<PaxosEnd, PaxosFault>) -> Status
    requires { (n : Name) → ended ≡ Err (PaxosFault.Disk n) → n.number < 10 }
    ensures { result ≡ status_of ended }
{
    match ended {
        Ok(PaxosEnd::Whole) => Status::Ok,
        Ok(PaxosEnd::TooLong) => Status::TooLong,
        Ok(PaxosEnd::Read) => Status::ReadFault,
        Err(PaxosFault::BadLine(line)) => Status::BadSchedule { line },
        Err(PaxosFault::TooMany { which }) => Status::TooMany { which },
        Err(PaxosFault::Disk(name)) => Status::DiskFault { node: id_of(name) },
        Err(PaxosFault::Write) => Status::WriteFault,
        Err(PaxosFault::NoMemory) => Status::NoMemory,
    }
}

/// Runs the schedule of Paxos Commit that a source gives over the processes of a run, each on the first of a pair of blank
/// disks, and writes the answers.
pub fn paxos<S: Source, W: Sink, D: StopDisk>(
    alloc: Global,
    group: Group,
    schedule: &mut S,
    out: &mut W,
    pairs: &mut Vec<Pair<D>>,
) -> Status
    requires members { (2 ≤ group.members) × (group.members ≤ 8) }
    requires faults { group.faults ≤ 2 }
    requires pairs { length pairs.old.items ≡ 16 }
    requires blank { (i : ℕ) → i < 16 → AreBlank (images_at (images D.view pairs.old.items) i) }
    requires unpicked { AllUnpicked (bench D.view pairs.old.items) }
    ensures came { CameOfGroup result group (S.view schedule.old) (S.view schedule.new)
        (paxos_devices (W.view out.old) (bench D.view pairs.old.items)) (paxos_devices (W.view out.new) (bench D.view pairs.new.items)) }
    ensures onward { NoneForgotten (bench D.view pairs.old.items) (bench D.view pairs.new.items) }
    ensures unarmed { AllUnarmed (bench D.view pairs.new.items) }
    ensures taken { Consumes (S.view schedule.old).left (S.view schedule.new).left (given (S.view schedule.old) (S.view schedule.new)) }
{
    status_of(run_paxos(alloc, group, pairs, schedule, out))
}
