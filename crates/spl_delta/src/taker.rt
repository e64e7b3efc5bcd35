//! Taking what batches changed, from a place on.
ghost use Rattle.std.specs.Prelude.{◌≡◌, ◌+◌, ◌++◌, ◌↔◌, IsTrue, length, IfOk, OnOk, OnErr, Some, slice_get};
ghost use Rattle.spl_delta.specs.Watches.{receipt_changes, delta, deltas};

use crate::delta::{Delta, Deltas};
use spl_agree::Place;
use spl_base::{BatchId, BatchIds, Value};
use spl_circuit::Definition;
use spl_command::{Changes, Receipt, StateChange};
use spl_scabbard::Service;
use std::alloc::{AllocError, Global};
use std::marker::Model;

/// Takes what the batches of a circuit changed, from a place on, at whichever member it asks. Contracts see the circuit's
/// definition and the place of what it takes next.
#[derive(Drop)]
pub struct Taker {
    definition: Definition,
    next: Place,
}

impl Model for Taker {
    ghost use Rattle.spl_delta.specs.Takers.{Taking};

    ghost Value = { Taking };

    ghost view = { λ t. record { definition = t.definition; next = t.next } };
}

impl Taker {
    /// A taker of the circuit of this definition, which begins at a place. Fails only where memory runs out.
    pub fn new(alloc: Global, definition: &Definition, start: Place) -> Result<Taker, AllocError>
        ensures { IfOk result (λ t. t ≡ record { definition = definition.now; next = start }) }
    {
        Ok(Taker {
            definition: definition.copy(alloc)?,
            next: start,
        })
    }

    /// The place of what it takes next.
    pub fn next(&self) -> Place
        ensures { result ≡ self.now.next }
    {
        self.next
    }

    /// Whether the definition is that of its circuit.
    pub fn fits(&self, definition: &Definition) -> bool
        ensures { IsTrue result ↔ (definition.now ≡ self.now.definition) }
    {
        definition.same(&self.definition)
    }

    /// The deltas of the service's batches from `next` on, as many as `count` and the service's history allow; `next` moves
    /// after them. Fails only where memory runs out, and is then as it was. What it costs is what it gives.
    pub fn take(
        &mut self,
        alloc: Global,
        service: &Service,
        count: u32,
    ) -> Result<Deltas, AllocError>
        ensures taken { IfOk result (λ ds. ds ≡ deltas service.now self.old.next count) }
        ensures moved { IfOk result (λ ds. self.new ≡ record self.old { next = self.old.next + length ds }) }
        ensures err { OnErr result (self.new ≡ self.old) }
    {
        let deltas = deltas_from(alloc, service, self.next, count)?;
        self.next = place_after(self.next, deltas.len())?;
        Ok(deltas)
    }
}

/// The place so many further. No history reaches beyond the last place: where the sum has more than 32 bits, this fails as
/// where memory runs out.
fn place_after(place: Place, count: usize) -> Result<Place, AllocError>
    ensures { IfOk result (λ p. p ≡ place + count) }
{
    let Ok(count) = u32::try_from(count) else {
        return Err(AllocError);
    };
    match place.0.checked_add(count) {
        Some(sum) => Ok(Place(sum)),
        None => Err(AllocError),
    }
}

/// Appends copies of changes.
fn append_changes(
    alloc: Global,
    changes: &[StateChange],
    out: &mut Changes,
) -> Result<(), AllocError>
    ensures { OnOk result (out.new ≡ out.old ++ changes.now) }
{
    for change in changes {
        out.push(change.copy(alloc)?)?;
    }
    Ok(())
}

/// Copies of the changes of receipts, in their order.
fn changes_in(alloc: Global, receipts: &[Receipt]) -> Result<Changes, AllocError>
    ensures { IfOk result (λ cs. cs ≡ receipt_changes receipts.now) }
{
    let mut out = Changes::new(alloc);
    for receipt in receipts {
        append_changes(alloc, receipt.changes.as_slice(), &mut out)?;
    }
    Ok(out)
}

/// The delta of the batch at a place, which has this id. A service admits no id twice, but its contracts don't say so: where
/// it reports the id of another place, this fails as where memory runs out.
fn delta_at(
    alloc: Global,
    service: &Service,
    place: Place,
    id: BatchId,
) -> Result<Delta, AllocError>
    ensures { IfOk result (λ d. delta service.now place ≡ Some d) }
{
    if service.place_of(id) != Some(place) {
        return Err(AllocError);
    }
    match service.receipt(id) {
        Some(receipts) => Ok(Delta {
            place,
            batch: id,
            changes: changes_in(alloc, receipts.as_slice())?,
        }),
        None => Err(AllocError),
    }
}

/// The id of the batch at a place.
fn id_at(ids: &BatchIds, place: Place) -> Option<BatchId>
    ensures { result ≡ slice_get ids.now place }
{
    ids.get(place.0 as usize).copied()
}

/// The deltas from a place on, as many as `count` and the service's history allow.
fn deltas_from(
    alloc: Global,
    service: &Service,
    from: Place,
    count: u32,
) -> Result<Deltas, AllocError>
    ensures { IfOk result (λ ds. ds ≡ deltas service.now from count) }
{
    let ids = service.history();
    let mut out = Deltas::new(alloc);
    let mut place = from;
    let mut left = count;
    while left > 0 {
        let Some(id) = id_at(ids, place) else {
            return Ok(out);
        };
        out.push(delta_at(alloc, service, place, id)?)?;
        place = place_after(place, 1)?;
        left -= 1;
    }
    Ok(out)
}
