//! Node processes, each over its own disks, as one world of each circuit: definitions, and the laws of them.
#![tactic(auto)]

ghost use Rattle.std.specs.Prelude.{◌≡◌, ◌++◌, List};
ghost use Rattle.spl_circuit.specs.Nodes.{NodeId, CircuitId};
ghost use Rattle.spl_circuit_world.specs.Worlds.{Occurrence};
ghost use Rattle.spl_deployment.specs.{Doings.Doing, Deployments.{AllMayBe, AreCircuitsApart, WorldGoesOn, History, IsLeftRunning, IsOneWorld, IsPossible}};
ghost use Rattle.spl_deployment.specs.Deployments.{KeepOneList, happened, left_by};

/// Any number of node processes, each over its own disks, each killed and begun again at any moments, between which links
/// carry only what a peer sent, lost, repeated and reordered as may be, are one world of each circuit, in which its members
/// agree.
pub fn deployments_are_worlds()
    ensures { (ns : List NodeId) (h : History) → IsPossible ns h → (c : CircuitId) → IsOneWorld ns h c }
{}

/// What happens later comes after what happened.
pub fn histories_go_on()
    ensures { (c : CircuitId) (h later : History) → happened c (h ++ later) ≡ happened c h ++ happened c later }
{}

/// Whatever two processes committed of a circuit, at whatever moments, is of one list.
pub fn processes_keep_one_list()
    ensures { (ns : List NodeId) (h later : History) → IsPossible ns (h ++ later) → KeepOneList h later }
{}

/// What a process keeps of a circuit hangs on what it did about that circuit, and on its beginnings, alone.
pub fn circuits_of_processes_are_apart()
    ensures { (n : NodeId) (xs : List Doing) → AreCircuitsApart n xs }
{}

/// So are processes that go on from what happened before, as from what a run over links has left.
pub fn deployments_go_on()
    ensures { (ns : List NodeId) (before : CircuitId → List Occurrence) (h : History) →
        IsLeftRunning ns before → AllMayBe ns (left_by ns before) h → (c : CircuitId) → WorldGoesOn ns before h c }
{}
