//! A node that serves, between two turns.
ghost use Rattle.std.specs.{Prelude.{◌≡◌, ◌⊎◌, [], ℕ, false, Err, IfOk, IfSome, OnOk, IsErrOf}, List.{list_any, Sorted.IsStrictlySortedBy}, Ordering.nat_cmp};
ghost use Rattle.std.specs.{Cmp.Lexicographic.slice_cmp, Str.bytes_eq};
ghost use Rattle.spl_circuit.specs.Nodes.{CircuitId as Circuit};
ghost use Rattle.spl_edge.specs.Devices.{Rose, Onward, IsSettled, image_now, pair_view};
ghost use Rattle.spl_journal.specs.Records.{IsBlank};
ghost use Rattle.spl_snapshot.specs.Counting.{HasRisen, IfBoth, PairOnward, PairStays, PairTellsAs, TellsAs, pair_records};
ghost use Rattle.spl_cell_rules.specs.Cells.{Empty, is_bound};
ghost use Rattle.spl_node.specs.{Stands.{StandOn, StandOnIfRead, is_node_halted}, Records.is_record, Stopping.HaveCells};
ghost use Rattle.spl_delta.specs.Kept.{watchers_of};
ghost use Rattle.spl_serve.specs.Servers.{ServerStands, Serves, is_tick_due, server_cells, server_here, server_served};

use crate::tally::Tally;
use crate::turn::ServerTurn;
use spl_base::{CircuitId, Listing, NodeId};
use spl_delta::Watchers;
use spl_edge::{Disk, Pair};
use spl_journal::JournalFault;
use spl_node::Node;
use spl_state::RunCache;
use std::alloc::{AllocError, Global};

/// A node that serves, whose disks stand for its cells. Its watchers live in memory alone.
#[derive(Drop)]
pub struct Server {
    pub(crate) node: Node,
    pub(crate) runs: RunCache,
    pub(crate) tally: Tally,
    pub(crate) watchers: Watchers,
}

impl Server {
    /// A node where nothing happened, over two blank disks; its journal is made on the first. No circuit has a watcher.
    pub fn create<D: Disk>(
        alloc: Global,
        here: NodeId,
        disks: &mut Pair<D>,
    ) -> Result<Server, JournalFault>
        requires first { IfSome (image_now (D.view disks.old.first)) IsBlank }
        requires second { IfSome (image_now (D.view disks.old.second)) IsBlank }
        ensures here { IfOk result (λ s. server_here s ≡ here) }
        ensures empty { IfOk result (λ s. (c : Circuit) → server_cells s c ≡ Empty) }
        ensures unwatched { IfOk result (λ s. (c : Circuit) → watchers_of s.watchers c ≡ []) }
        ensures stands { IfOk result (λ s. ServerStands s (pair_view D.view disks.new)) }
        ensures told_first { OnOk result (TellsAs (image_now (D.view disks.old.first)) (image_now (D.view disks.new.first))) }
        ensures not { (at : ℕ) → IsErrOf result (JournalFault.NotAJournal at) → ⊥ }
        ensures failed { IsErrOf result JournalFault.Disk → Rose (D.view disks.old.first).faults (D.view disks.new.first).faults }
        ensures on_first { Onward (D.view disks.old.first) (D.view disks.new.first) }
        ensures second { disks.new.second ≡ disks.old.second }
    {
        Ok(Server {
            node: Node::create(alloc, here, disks)?,
            runs: RunCache::new(),
            tally: Tally::new(),
            watchers: Watchers::new(alloc),
        })
    }

    /// The node whose cells its disks make, on which nothing is pending. No circuit has a watcher. The disks hold what they held,
    /// but that a journal of an older form is written again on the disk that doesn't count. `NotAJournal` comes exactly where
    /// they are no journal, as two blank ones, and `Disk` only where one of them failed.
    pub fn open<D: Disk>(
        alloc: Global,
        here: NodeId,
        disks: &mut Pair<D>,
    ) -> Result<Server, JournalFault>
        requires first { IfSome (image_now (D.view disks.old.first)) IsSettled }
        requires second { IfSome (image_now (D.view disks.old.second)) IsSettled }
        ensures here { IfOk result (λ s. server_here s ≡ here) }
        ensures cells { IfOk result (λ s. IfBoth (image_now (D.view disks.old.first)) (image_now (D.view disks.old.second))
            (λ i j. HaveCells here (server_cells s) i.bytes j.bytes)) }
        ensures unwatched { IfOk result (λ s. (c : Circuit) → watchers_of s.watchers c ≡ []) }
        ensures stands { IfOk result (λ s. ServerStands s (pair_view D.view disks.new)) }
        ensures told { OnOk result (PairTellsAs (pair_view D.view disks.old) (pair_view D.view disks.new)) }

        // Each image of any moment of the call stands for the same cells.
        ensures any_moment { StandOnIfRead here (pair_view D.view disks.old) (pair_view D.view disks.new) }
        ensures still { PairStays (pair_view D.view disks.old) (pair_view D.view disks.new)
            ⊎ StandOn here (pair_view D.view disks.old) (pair_view D.view disks.new) }
        ensures not { (at : ℕ) → IsErrOf result (JournalFault.NotAJournal at)
            → IfBoth (image_now (D.view disks.old.first)) (image_now (D.view disks.old.second))
            (λ i j. pair_records is_record i.bytes j.bytes ≡ Err at) }
        ensures unread { (at : ℕ) → IsErrOf result (JournalFault.NotAJournal at)
            → PairStays (pair_view D.view disks.old) (pair_view D.view disks.new) }
        ensures failed { IsErrOf result JournalFault.Disk → HasRisen (pair_view D.view disks.old) (pair_view D.view disks.new) }
        ensures onward { PairOnward (pair_view D.view disks.old) (pair_view D.view disks.new) }
    {
        let node = Node::open(alloc, here, disks)?;
        Ok(Server {
            node,
            runs: RunCache::new(),
            tally: Tally::new(),
            watchers: Watchers::new(alloc),
        })
    }

    /// Its id.
    pub fn here(&self) -> NodeId
        ensures { result ≡ server_here self.now }
    {
        self.node.here()
    }

    /// The circuits that are bound here, in the order of their ids. The only error is that memory ran out.
    pub fn roll(&self, alloc: Global) -> Result<Listing<CircuitId>, AllocError>
        ensures sorted { IfOk result (λ ids. IsStrictlySortedBy (slice_cmp nat_cmp) ids) }
        ensures bound { IfOk result (λ ids. (c : Circuit) → list_any (bytes_eq c) ids ≡ is_bound (server_cells self.now c)) }
    {
        self.node.roll(alloc)
    }

    /// Whether a tick has anything to do at the cell of a circuit.
    pub fn is_due(&self, circuit: &CircuitId) -> bool
        ensures { result ≡ is_tick_due (server_here self.now) (server_cells self.now) circuit.now }
    {
        self.node.due(circuit) == Some(true)
    }

    /// What it did since its process began.
    pub fn tally(&self) -> Tally
        ensures { result ≡ self.now.tally }
    {
        self.tally
    }

    /// Begins a turn.
    pub fn begin(self, alloc: Global) -> ServerTurn
        requires running { is_node_halted self.node ≡ false }
        ensures node { result.turn.node ≡ self.node }
        ensures nothing { Serves (server_here self) (server_served self) [] result }
    {
        ServerTurn::new(alloc, self)
    }
}
