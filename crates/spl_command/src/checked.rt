//! The transactions of a batch, which are looked through once.
ghost use Rattle.std.specs.Prelude.{◌≡◌, List, None, IfOk};
ghost use Rattle.spl_command.specs.{Causes.cause_from, Checked.{AreFindings, broken_among}, declared.batch.Transaction.Transaction};

use crate::batch::{MOST_ITEMS, Transaction, Transactions};
use crate::cause::first_cause;
use crate::rules::{LONGEST_BATCH, first_fault};
use crate::size::list_size;
use spl_base::{Field, Malformed, Piece, Reader, Value, Writer, put_list, take_list};
use std::alloc::{AllocError, Global};
use std::marker::Model;
use std::rc::Rc;

/// The bytes that memory is taken for before transactions are spelled: the form of most is shorter.
const USUAL: usize = 96;

/// The length of the byte form of an id, which stands before the transactions in that of a batch.
const ID_LENGTH: usize = 8;

/// What is found of the transactions of a batch.
#[derive(Drop)]
enum Findings {
    /// Nothing was looked for: they were read, and may be written no more.
    Unsought,
    /// The batch breaks this rule, and none before it.
    Broken(u8),
    /// The batch breaks no rule: the byte form of the list, and the first cause that makes the batch invalid,
    /// as the number of its transaction and the cause.
    Sound {
        form: Piece,
        cause: Option<(u8, u8)>,
    },
}

/// Transactions, and what is found of them.
#[derive(Drop)]
struct Checked {
    transactions: Transactions,
    findings: Findings,
}

/// The transactions of a batch on the heap, shared by its copies, with what is found of them once where they are made: their
/// byte form, the first broken rule and the first cause. Of those that are read again it is looked for when it is asked.
/// Contracts see the transactions.
#[derive(Drop)]
pub struct CheckedTransactions {
    inner: Rc<Checked>,
}

impl Model for CheckedTransactions {
    ghost Value = { List Transaction };

    ghost view = { λ t. t.inner.value.transactions };

    ghost invariant = { λ t. AreFindings t.inner.value.transactions t.inner.value.findings };
}

/// What is found of transactions. The only error is that memory ran out.
fn look_through(alloc: Global, transactions: &[Transaction]) -> Result<Findings, AllocError>
    ensures { IfOk result (AreFindings transactions.now) }
{
    if let Some(rule) = first_fault(transactions) {
        return Ok(Findings::Broken(rule));
    }
    let mut form = Writer::with_room(alloc, USUAL)?;
    put_list(transactions, &mut form)?;
    let form = form.bytes();
    if LONGEST_BATCH - ID_LENGTH < form.len() {
        return Ok(Findings::Broken(6));
    }
    let form = Piece::from(alloc, form)?;
    let cause = first_cause(transactions);
    Ok(Findings::Sound { form, cause })
}

/// The number of the first rule that a batch of these transactions breaks. Nothing is written.
fn first_broken(transactions: &[Transaction]) -> Option<u8>
    ensures { result ≡ broken_among transactions.now }
{
    if let Some(rule) = first_fault(transactions) {
        return Some(rule);
    }
    if LONGEST_BATCH - ID_LENGTH < list_size(transactions) {
        Some(6)
    } else {
        None
    }
}

impl CheckedTransactions {
    /// The transactions, moved to the heap, of which nothing is looked for.
    fn unsought(
        alloc: Global,
        transactions: Transactions,
    ) -> Result<CheckedTransactions, AllocError>
        ensures { IfOk result (λ t. t ≡ transactions) }
    {
        let checked = Checked {
            transactions,
            findings: Findings::Unsought,
        };
        Ok(CheckedTransactions {
            inner: Rc::new(alloc, checked)?,
        })
    }

    /// The transactions, moved to the heap. The only error is that memory ran out.
    pub fn new(alloc: Global, transactions: Transactions) -> Result<CheckedTransactions, AllocError>
        ensures { IfOk result (λ t. t ≡ transactions) }
    {
        let findings = look_through(alloc, transactions.as_slice())?;
        let checked = Checked {
            transactions,
            findings,
        };
        Ok(CheckedTransactions {
            inner: Rc::new(alloc, checked)?,
        })
    }

    /// The transactions.
    pub fn get(&self) -> &Transactions
        ensures { result.now ≡ self.now }
    {
        &self.inner.transactions
    }

    /// The number of the first rule that a batch of them breaks, None where it keeps all six.
    pub(crate) fn fault(&self) -> Option<u8>
        ensures { result ≡ broken_among self.now }
    {
        match &self.inner.findings {
            Findings::Unsought => first_broken(self.get().as_slice()),
            Findings::Broken(rule) => Some(*rule),
            Findings::Sound { .. } => None,
        }
    }

    /// The first cause of invalidity and the number of its transaction, as `Batch::cause`.
    pub(crate) fn cause(&self) -> Option<(u8, u8)>
        requires { broken_among self.now ≡ None }
        ensures { result ≡ cause_from 1 self.now }
    {
        match &self.inner.findings {
            Findings::Unsought => first_cause(self.get().as_slice()),
            Findings::Broken(_) => None,
            Findings::Sound { cause, .. } => *cause,
        }
    }
}

impl Field for CheckedTransactions {
    ghost use Rattle.spl_command.specs.TransactionForms.{transactions, exact_transactions};

    ghost form = { transactions };

    fn put_parts(&self, w: &mut Writer) -> Result<(), AllocError> {
        match &self.inner.findings {
            Findings::Sound { form, .. } => w.put_raw(form.bytes()),
            _ => put_list(self.inner.transactions.as_slice(), w),
        }
    }

    fn take_parts(alloc: Global, r: &mut Reader) -> Result<CheckedTransactions, Malformed> {
        let transactions = take_list(alloc, r, MOST_ITEMS)?;
        Ok(CheckedTransactions::unsought(alloc, transactions)?)
    }

    ghost exact = { exact_transactions };
}

impl Value for CheckedTransactions {
    fn same(&self, other: &CheckedTransactions) -> bool {
        match (&self.inner.findings, &other.inner.findings) {
            (Findings::Sound { form: a, .. }, Findings::Sound { form: b, .. }) => a.same(b),
            _ => self.get().same(other.get()),
        }
    }

    fn copy(&self, _alloc: Global) -> Result<CheckedTransactions, AllocError> {
        Ok(CheckedTransactions {
            inner: self.inner.clone()?,
        })
    }
}
