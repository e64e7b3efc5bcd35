//! Batches and receipts are compared and copied.
use crate::batch::{Batch, Command, Transaction};
use crate::receipt::{Receipt, StateChange, StateEvent};
use spl_base::Value;
use std::alloc::{AllocError, Global};

impl Value for Command {
    fn same(&self, other: &Command) -> bool {
        match (self, other) {
            (Command::Set(a, x), Command::Set(b, y)) => a == b && x.same(y),
            (Command::Get(a), Command::Get(b)) => a == b,
            (Command::Delete(a), Command::Delete(b)) => a == b,
            (Command::Event(k, x), Command::Event(l, y)) => k.same(l) && x.same(y),
            (Command::Data(x), Command::Data(y)) => x.same(y),
            (Command::Invalid(k), Command::Invalid(l)) => k.same(l),
            (Command::Error(k), Command::Error(l)) => k.same(l),
            _ => false,
        }
    }

    fn copy(&self, alloc: Global) -> Result<Command, AllocError> {
        match self {
            Command::Set(address, value) => Ok(Command::Set(*address, value.copy(alloc)?)),
            Command::Get(address) => Ok(Command::Get(*address)),
            Command::Delete(address) => Ok(Command::Delete(*address)),
            Command::Event(kind, data) => Ok(Command::Event(*kind, data.copy(alloc)?)),
            Command::Data(data) => Ok(Command::Data(data.copy(alloc)?)),
            Command::Invalid(text) => Ok(Command::Invalid(*text)),
            Command::Error(text) => Ok(Command::Error(*text)),
        }
    }
}

impl Value for Transaction {
    fn same(&self, other: &Transaction) -> bool {
        self.inputs.same(&other.inputs)
            && self.outputs.same(&other.outputs)
            && self.commands.same(&other.commands)
    }

    fn copy(&self, alloc: Global) -> Result<Transaction, AllocError> {
        Ok(Transaction {
            inputs: self.inputs.copy(alloc)?,
            outputs: self.outputs.copy(alloc)?,
            commands: self.commands.copy(alloc)?,
        })
    }
}

impl Value for Batch {
    fn same(&self, other: &Batch) -> bool {
        self.id.same(&other.id) && self.transactions.same(&other.transactions)
    }

    fn copy(&self, alloc: Global) -> Result<Batch, AllocError> {
        Ok(Batch {
            id: self.id,
            transactions: self.transactions.copy(alloc)?,
        })
    }
}

impl Value for StateChange {
    fn same(&self, other: &StateChange) -> bool {
        match (self, other) {
            (StateChange::Set(a, x), StateChange::Set(b, y)) => a == b && x.same(y),
            (StateChange::Delete(a), StateChange::Delete(b)) => a == b,
            _ => false,
        }
    }

    fn copy(&self, alloc: Global) -> Result<StateChange, AllocError> {
        match self {
            StateChange::Set(address, value) => Ok(StateChange::Set(*address, value.copy(alloc)?)),
            StateChange::Delete(address) => Ok(StateChange::Delete(*address)),
        }
    }
}

impl Value for StateEvent {
    fn same(&self, other: &StateEvent) -> bool {
        self.kind.same(&other.kind) && self.data.same(&other.data)
    }

    fn copy(&self, alloc: Global) -> Result<StateEvent, AllocError> {
        Ok(StateEvent {
            kind: self.kind,
            data: self.data.copy(alloc)?,
        })
    }
}

impl Value for Receipt {
    fn same(&self, other: &Receipt) -> bool {
        self.changes.same(&other.changes)
            && self.events.same(&other.events)
            && self.returned.same(&other.returned)
    }

    fn copy(&self, alloc: Global) -> Result<Receipt, AllocError> {
        Ok(Receipt {
            changes: self.changes.copy(alloc)?,
            events: self.events.copy(alloc)?,
            returned: self.returned.copy(alloc)?,
        })
    }
}
