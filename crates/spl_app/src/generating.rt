//! Runs generated schedules.
ghost use Rattle.std.specs.Prelude.{◌≡◌, ◌<◌, ◌≤◌, ◌+◌, ◌*◌, ◌/◌, ℕ, List, IfOk, IsTrue, length};
ghost use Rattle.spl_edge.specs.Devices.{FabricView, PairView, SourceView, bench};
ghost use Rattle.spl_base.specs.Ids.{is_node_id};
ghost use Rattle.spl_gen.specs.{Circuits.nodes, declared.generate.TheConstants.MOST_BATCHES};
ghost use Rattle.spl_registry.specs.Nodes.{local_entries};
ghost use Rattle.spl_runs.specs.Run.{plan};
ghost use Rattle.spl_node.specs.Benches.{AllUnarmed, NoneForgotten, images, AreBlank, images_at, AllUnpicked};
ghost use Rattle.spl_app.specs.{Asked.{generated_lines, outside}, Headline.Began};

use crate::ended::status_of;
use crate::generated::generated_texts_are_lines;
use crate::replay::run_in_memory;
use crate::text::TextSource;
use spl_base::NodeId;
use spl_cli::{Command, Status};
use spl_edge::{Pair, Sink, StopDisk};
use spl_gen::schedule;
use spl_registry::Registry;
use spl_runs::{Beginning, Mode, Writing};
use std::alloc::{AllocError, Global};

fn node(name: &[u8]) -> NodeId
    requires { IsTrue (is_node_id name.now) }
    ensures { result ≡ name.now }
{
    NodeId::read(name).unwrap()
}

// The nodes of a generated schedule.
fn nodes(alloc: Global) -> Result<Vec<NodeId>, AllocError>
    ensures { IfOk result (λ v. v.items ≡ nodes) }
{
    let mut ids = Vec::new(alloc);
    ids.push(node(b"n1"))?;
    ids.push(node(b"n2"))?;
    ids.push(node(b"n3"))?;
    ids.push(node(b"n4"))?;
    Ok(ids)
}

// Their registry.
fn registry(alloc: Global) -> Result<Registry, AllocError>
    ensures { IfOk result (λ r. r ≡ local_entries nodes) }
{
    let ids = nodes(alloc)?;
    Ok(Registry::of(alloc, &ids)?)
}

// How many lines a schedule of n batches has before its last nine.
fn first_lines(n: u16) -> u32
    ensures { result ≡ 18 + 2 * n + 2 * (n / 50) }
{
    let n = u32::from(n);
    18 + 2 * n + 2 * (n / 50)
}

/// Runs the schedule that these numbers make over its nodes, whose disks are blank, and writes the
/// answers to its last nine lines alone.
pub fn run_generated<W: Sink, D: StopDisk>(
    alloc: Global,
    n: u16,
    seed: u64,
    out: &mut W,
    pairs: &mut Vec<Pair<D>>,
) -> Status
    requires some { 1 ≤ n }
    requires few { n ≤ MOST_BATCHES }
    requires pairs { 4 ≤ length pairs.old.items }
    requires blank { (i : ℕ) → i < 4 → AreBlank (images_at (images D.view pairs.old.items) i) }
    requires unpicked { AllUnpicked (bench D.view pairs.old.items) }
    // Whatever else there is: none of it is used.
    ensures began { (view : SourceView) (shelf : List PairView) (fabric : FabricView) → Began result (Command.Gen n seed)
        (plan (local_entries nodes) (generated_lines n seed)) view view
        (outside (W.view out.old) (bench D.view pairs.old.items) shelf fabric) (outside (W.view out.new) (bench D.view pairs.new.items) shelf fabric) }
    ensures onward { NoneForgotten (bench D.view pairs.old.items) (bench D.view pairs.new.items) }
    ensures unarmed { (result ≡ Status.NoMemory → ⊥) → AllUnarmed (bench D.view pairs.new.items) }
{
    generated_texts_are_lines();
    let Ok(registry) = registry(alloc) else {
        return Status::NoMemory;
    };
    let Ok(text) = schedule(alloc, n, seed) else {
        return Status::NoMemory;
    };
    let mut source = TextSource::new(text);
    let mode = Mode {
        beginning: Beginning::Blank,
        writing: Writing::Answers,
        unanswered: first_lines(n),
    };
    let ended = run_in_memory(alloc, &registry, pairs, &mut source, out, mode);
    status_of(&registry, ended)
}
