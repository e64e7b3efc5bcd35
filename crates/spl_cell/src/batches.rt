//! What a bound cell reports of the batches that are committed here.
ghost use Rattle.std.specs.Prelude.{◌≡◌, None, map, IfOk};
ghost use Rattle.spl_cell_rules.specs.Batches.{when_active, root_told, history_told, value_told, listed_entries, status_told, status_kept, receipt_told};
ghost use Rattle.spl_cell_rules.specs.Plans.{planned, tells_only};
ghost use Rattle.spl_cell.specs.Asks.{asks, told_at};

use crate::held::Held;
use crate::plans::{refuses, tells_only};
use spl_base::{BatchId, Piece, Value};
use spl_command::states_are_in_address_order;
use spl_commit::Known;
use spl_scabbard::Service;
use spl_state::{Address, Prefix, State};
use spl_wire::{Answer, BatchStatus, Entries, Entry, Plan, Refusal};
use std::alloc::{AllocError, Global};

/// A question about the batches that are committed here.
#[derive(Clone, Copy)]
pub(crate) enum Question {
    Root,
    History,
    Value(Address),
    Listed(Prefix),
    Status(BatchId),
    Receipt(BatchId),
}

/// The entries of a state at addresses that have values.
#[tactic(auto, using(crate::proofs::Entries::told_more))]
fn entries_at(alloc: Global, state: &State, addresses: &[Address]) -> Result<Entries, AllocError>
    ensures { IfOk result (λ es. es ≡ map (told_at state.now) addresses.now) }
{
    let mut entries = Entries::new(alloc);
    for address in addresses {
        let value = state.get(address).unwrap_or(&[]);
        entries.push(Entry {
            address: *address,
            value: Piece::from(alloc, value)?,
        })?;
    }
    Ok(entries)
}

impl Held {
    /// How many batches are committed here, and the root of their state.
    fn root_told(&self) -> Answer
        ensures { result ≡ root_told self.now.bound.batches }
    {
        Answer::Root {
            count: self.committed::<Service>(),
            root: self.service().root(),
        }
    }

    /// The ids of the batches.
    fn history_told(&self, alloc: Global) -> Result<Answer, AllocError>
        ensures { IfOk result (λ a. a ≡ history_told self.now.bound.batches) }
    {
        Ok(Answer::History(self.service().history().copy(alloc)?))
    }

    /// The value at an address, if there is one.
    fn value_told(&self, alloc: Global, address: &Address) -> Result<Answer, AllocError>
        ensures { IfOk result (λ a. a ≡ value_told self.now.bound.batches address.now) }
    {
        let state = self.service().state();
        match state.get(address) {
            Some(bytes) => Ok(Answer::Value(Some(Piece::from(alloc, bytes)?))),
            None => Ok(Answer::Value(None)),
        }
    }

    /// The entries under a prefix.
    #[tactic(auto, using(crate::proofs::Entries::listed_by_address))]
    fn listed(&self, alloc: Global, prefix: &Prefix) -> Result<Answer, AllocError>
        ensures { IfOk result (λ a. a ≡ listed_entries self.now.bound.batches prefix.now) }
    {
        states_are_in_address_order();
        let state = self.service().state();
        let addresses = state.under(alloc, prefix)?;
        Ok(Answer::Listed(entries_at(alloc, state, &addresses)?))
    }

    /// Where a batch that isn't committed stands.
    fn status_kept(&self, id: BatchId) -> Answer
        ensures { tells_only result ≡ planned self.now.site (status_kept self.now.bound.batches id None) }
    {
        match self.batches.waiting(&id) {
            Known::Pending(_) => Answer::Status(BatchStatus::Pending),
            Known::Refused(_, reason) => Answer::Status(BatchStatus::Refused(reason)),
            Known::No => Answer::Refused(Refusal::UnknownId),
        }
    }

    /// Where a batch stands: the history is asked first, then the pending ones, then the refused.
    fn status_told(&self, id: BatchId) -> Answer
        ensures { tells_only result ≡ planned self.now.site (status_told self.now.bound.batches id) }
    {
        match self.service().place_of(id) {
            Some(place) => Answer::Status(BatchStatus::Committed(place)),
            None => self.status_kept(id),
        }
    }

    /// What a committed batch left.
    fn receipt_told(&self, alloc: Global, id: BatchId) -> Result<Answer, AllocError>
        ensures { IfOk result (λ a. tells_only a ≡ planned self.now.site (receipt_told self.now.bound.batches id)) }
    {
        let service = self.service();
        let Some(place) = service.place_of(id) else {
            return Ok(Answer::Refused(Refusal::UnknownId));
        };
        let Some(receipts) = service.receipt(id) else {
            return Ok(Answer::Refused(Refusal::UnknownId));
        };
        Ok(Answer::Receipt {
            batch: id,
            place,
            receipts: receipts.copy(alloc)?,
        })
    }

    /// The answer to a question at an active circuit.
    fn answers(&self, alloc: Global, question: Question) -> Result<Answer, AllocError>
        ensures { IfOk result (λ a. tells_only a ≡ planned self.now.site (asks self.now.bound.batches question)) }
    {
        match question {
            Question::Root => Ok(self.root_told()),
            Question::History => self.history_told(alloc),
            Question::Value(address) => self.value_told(alloc, &address),
            Question::Listed(prefix) => self.listed(alloc, &prefix),
            Question::Status(id) => Ok(self.status_told(id)),
            Question::Receipt(id) => self.receipt_told(alloc, id),
        }
    }

    /// The answer to a question about the batches, at an active circuit alone.
    pub(crate) fn asks(&self, alloc: Global, question: Question) -> Result<Plan, AllocError>
        ensures { IfOk result (λ p. p ≡ planned self.now.site (when_active self.now.bound (asks self.now.bound.batches question))) }
    {
        if !self.runs() {
            return Ok(refuses(alloc, Refusal::NotActive));
        }
        Ok(tells_only(alloc, self.answers(alloc, question)?))
    }
}
