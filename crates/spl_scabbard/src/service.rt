//! What the batches that were applied have left.
ghost use Rattle.std.specs.{Prelude.{◌≡◌, [], None, IfOk}, Option.option_copied};
ghost use Rattle.spl_state.specs.Root.{node_at};
ghost use Rattle.spl_command.specs.{Rules.broken_batch, Lists.{state_of, receipts_after}};
ghost use Rattle.spl_scabbard.specs.{Checks.{is_taken, misfit_valid, misfit_batch}, Readers.{ids_of, place_of, receipts_of}};

use indexmap::IndexMap;
use spl_agree::{Place, Reason, Renew};
use spl_base::{BatchId, BatchIds, Listing};
use spl_command::{Batch, Receipts, Verdict, execute};
use spl_state::{RunCache, State};
use std::alloc::{AllocError, Global};
use std::marker::Model;

/// The batches applied so far, the state that they left, and the receipts of each by its id
/// (docs/RULES.md, Batches). Contracts see the batches. A batch is applied whole or, after want of
/// memory, not at all.
#[derive(Drop)]
pub struct Service {
    pub(crate) batches: Vec<Batch>,
    pub(crate) ids: BatchIds,
    pub(crate) kept: IndexMap<BatchId, Receipts>,
    pub(crate) state: State,
}

impl Model for Service {
    ghost use Rattle.std.specs.Prelude.{List};
    ghost use Rattle.spl_command.specs.declared.batch.Batch.{Batch as BatchValue};
    ghost use Rattle.spl_scabbard.specs.Kept.{IsKept};

    ghost Value = { List BatchValue };

    ghost view = { λ s. s.batches.items };

    ghost invariant = { λ s. IsKept s.batches.items s.ids s.kept.entries s.state };
}

impl Service {
    /// No batches, and the empty state. Nothing is allocated.
    pub fn new(alloc: Global) -> Service
        ensures { result ≡ [] }
    {
        Service {
            batches: Vec::new(alloc),
            ids: Listing::new(alloc),
            kept: IndexMap::new(alloc),
            state: State::new(),
        }
    }

    /// The state that the batches left.
    pub fn state(&self) -> &State
        ensures { result.now ≡ state_of self.now }
    {
        &self.state
    }

    /// The root of the state, without memory. What is stale is computed and not kept, which `renew`
    /// does.
    pub fn root(&self) -> [u8; 32]
        ensures { result ≡ node_at 70 [] (state_of self.now) }
    {
        self.state.root()
    }

    /// The batches, in the order in which they were applied.
    pub fn batches(&self) -> &[Batch]
        ensures { result.now ≡ self.now }
    {
        &self.batches
    }

    /// The ids of the batches, in the order in which they were applied.
    pub fn history(&self) -> &BatchIds
        ensures { result.now ≡ ids_of self.now }
    {
        &self.ids
    }

    /// The receipts of the batch of an id; None exactly where no batch has it.
    pub fn receipt(&self, id: BatchId) -> Option<&Receipts>
        ensures { option_copied result ≡ receipts_of self.now id }
    {
        self.kept.get(&id)
    }

    /// The place of the batch of an id, from 0; None exactly where no batch has it.
    pub fn place_of(&self, id: BatchId) -> Option<Place>
        ensures { result ≡ place_of self.now id }
    {
        let place = self.kept.get_index_of(&id)?;
        Some(Place(place as u32))
    }

    fn has(&self, id: BatchId) -> bool
        ensures { result ≡ is_taken self.now id }
    {
        self.kept.contains_key(&id)
    }

    fn misfit_valid(&self, batch: &Batch) -> Option<Reason>
        requires { broken_batch batch.now ≡ None }
        ensures { result ≡ misfit_valid self.now batch.now }
    {
        if self.has(batch.id) {
            return Some(Reason::ID_TAKEN);
        }
        match batch.cause() {
            Some((transaction, cause)) => Some(Reason {
                code: cause,
                at: transaction,
            }),
            None => None,
        }
    }

    /// Why the batch can't be the next one, if it can't.
    pub(crate) fn misfit(&self, batch: &Batch) -> Option<Reason>
        ensures { result ≡ misfit_batch self.now batch.now }
    {
        match batch.fault() {
            Some(rule) => Some(Reason {
                code: Reason::BROKEN_RULE,
                at: rule,
            }),
            None => self.misfit_valid(batch),
        }
    }

    /// The receipts that the batch leaves after the others.
    pub(crate) fn run(&self, alloc: Global, batch: &Batch) -> Result<Receipts, AllocError>
        requires { broken_batch batch.now ≡ None }
        ensures { IfOk result (λ rs. rs ≡ receipts_after self.now batch.now) }
    {
        match execute(alloc, self.state(), batch)? {
            Verdict::Valid(receipts) => Ok(receipts),
            Verdict::Invalid { .. } => Ok(Receipts::new(alloc)),
        }
    }
}

impl Renew for Service {
    type Cache = RunCache;

    /// Makes the state's stale digests again.
    fn renew(&mut self, cache: &mut RunCache) {
        self.state.renew(cache);
    }
}
