//! Any number of runs over one folder are one history. Each law is a function without a body.
ghost use Rattle.std.specs.Prelude.{◌≡◌, List, ℕ, length};
ghost use Rattle.spl_audit.specs.{Runs.IsAudited, Audit.CameOfAudit};
ghost use Rattle.spl_audit.specs.declared.verdict.Verdict.TheVariants as verdict;
ghost use Rattle.spl_circuit.specs.Nodes.{CircuitId};
ghost use Rattle.spl_edge.specs.Devices.{PairView, SinkView, SourceView};
ghost use Rattle.spl_circuit_world.specs.Worlds.{Occurrence};
ghost use Rattle.spl_registry.specs.Nodes.{Entry, IsRegistry};
ghost use Rattle.spl_runs.specs.Run.{Plan, RunMode, origin, Devices, Ended, PlanRun, held_on};
ghost use Rattle.spl_cli.specs.declared.status.Status.{Status};
ghost use Rattle.spl_cli.specs.declared.status.Status.TheVariants as status;
ghost use Rattle.spl_node.specs.Benches.{AllTell, Images};
ghost use Rattle.spl_app.specs.{Folders.{Folder, OneHistory}, Found.AllFound, Left.HasLeftCells, Runs.IsOneHistory};

use spl_circuit_safety::circuits_agree;
use spl_delta::watch_lines_are_read_back;
use spl_sched::lines_have_one_spelling;

/// Whatever a run ended with, what is found on the disks of its nodes, as it left them or as a crash then did, are the cells of
/// one history: what happened before, a stop and start of each node, what happened in the tasks that ran, and the first part
/// of what happens in the one that was under way.
pub fn runs_leave_one_history()
    ensures { (e : Ended) (w : RunMode) (p : Plan) (x y : Devices) (r : PlanRun e w p x y) (before : CircuitId → List Occurrence) (found : List Images)
        → HasLeftCells (origin p) before → AllFound (length p.nodes) (held_on y.disks) found → AllTell (length p.nodes) found
        → IsOneHistory p before r.reached.before r.reached.stop found }
{
    lines_have_one_spelling();
    watch_lines_are_read_back();
}

/// So any number of runs over the disks of one folder are one history, and of each circuit all members agree after it.
pub fn folders_have_one_history()
    ensures { (es : List Entry) (is : List Images) (folder : Folder es is) → OneHistory folder }
{
    runs_leave_one_history();
    circuits_agree();
}

/// And an audit over what they left never finds that two nodes clash.
pub fn audits_find_no_clash()
    ensures said { (es : List Entry) (ps : List PairView) (text : List ℕ)
        → IsRegistry es → AllTell (length es) (held_on ps) → Folder es (held_on ps) → IsAudited es ps verdict.Disagreed text → ⊥ }
    ensures ended { (s : Status) (r q : SourceView) (ps qs : List PairView) (w x : SinkView) (came : CameOfAudit s r q ps qs w x)
        → AllTell (length came.nodes) (held_on ps) → Folder came.nodes (held_on ps) → s ≡ status.Disagreed → ⊥ }
{
    folders_have_one_history();
}
