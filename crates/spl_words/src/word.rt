//! Values that are one word.
ghost use Rattle.std.specs.Prelude.{◌≡◌, ◌++◌, ◌∷◌, OnOk};
ghost use Rattle.spl_words.specs.Words.{Word as Spelling, Reads, Takes, read_first};

use crate::fault::LineFault;
use crate::words::WordReader;
use spl_base::{CircuitId, Label, NodeId, ServiceId, Writer};
use std::alloc::{AllocError, Global};

/// A way to spell values of a type as one word. A type that is spelled in one way is its own; where
/// there are several ways, or the type is of another crate, each is a type without fields.
pub trait Word {
    /// What is spelled.
    type Value: Drop;

    /// How a value is spelled, and what is read.
    ghost word: { Spelling Self.Value };

    /// The value that the bytes spell; `BadLine` where they spell none.
    fn read(alloc: Global, bytes: &[u8]) -> Result<Self::Value, LineFault>
        ensures { Reads result (word.read bytes.now) };

    /// Appends the spelling.
    fn put(value: &Self::Value, w: &mut Writer) -> Result<(), AllocError>
        ensures { OnOk result (w.new ≡ w.old ++ word.spell value.now) };
}

/// Takes the next word.
pub fn take<W: Word>(alloc: Global, words: &mut WordReader) -> Result<W::Value, LineFault>
    ensures { Takes result words.new (read_first W.word words.old) }
{
    match words.next() {
        Some(bytes) => W::read(alloc, bytes),
        None => Err(LineFault::BadLine),
    }
}

/// Appends a space and the word.
pub fn put_next<W: Word>(value: &W::Value, w: &mut Writer) -> Result<(), AllocError>
    ensures { OnOk result (w.new ≡ w.old ++ 32 ∷ W.word.spell value.now) }
{
    w.put_u8(b' ')?;
    W::put(value, w)
}

impl Word for NodeId {
    ghost use Rattle.spl_base.specs.Ids.{is_node_id};
    ghost use Rattle.spl_words.specs.Words.{text};

    type Value = NodeId;

    ghost word = { text is_node_id };

    fn read(_alloc: Global, bytes: &[u8]) -> Result<NodeId, LineFault> {
        NodeId::read(bytes).ok_or(LineFault::BadLine)
    }

    fn put(value: &NodeId, w: &mut Writer) -> Result<(), AllocError> {
        w.put_raw(value.bytes())
    }
}

impl Word for CircuitId {
    ghost use Rattle.spl_base.specs.Ids.{is_circuit_id};
    ghost use Rattle.spl_words.specs.Words.{text};

    type Value = CircuitId;

    ghost word = { text is_circuit_id };

    fn read(_alloc: Global, bytes: &[u8]) -> Result<CircuitId, LineFault> {
        CircuitId::read(bytes).ok_or(LineFault::BadLine)
    }

    fn put(value: &CircuitId, w: &mut Writer) -> Result<(), AllocError> {
        w.put_raw(value.bytes())
    }
}

impl Word for ServiceId {
    ghost use Rattle.spl_base.specs.Ids.{is_service_id};
    ghost use Rattle.spl_words.specs.Words.{text};

    type Value = ServiceId;

    ghost word = { text is_service_id };

    fn read(_alloc: Global, bytes: &[u8]) -> Result<ServiceId, LineFault> {
        ServiceId::read(bytes).ok_or(LineFault::BadLine)
    }

    fn put(value: &ServiceId, w: &mut Writer) -> Result<(), AllocError> {
        w.put_raw(value.bytes())
    }
}

/// A name of 1 to 128 graphic bytes, as itself.
pub struct Name;

impl Word for Name {
    ghost use Rattle.spl_words.specs.Words.{is_name, text};

    type Value = Label;

    ghost word = { text is_name };

    fn read(_alloc: Global, bytes: &[u8]) -> Result<Label, LineFault> {
        if bytes.is_empty() {
            return Err(LineFault::BadLine);
        }
        Label::read(bytes).ok_or(LineFault::BadLine)
    }

    fn put(value: &Label, w: &mut Writer) -> Result<(), AllocError> {
        w.put_raw(value.bytes())
    }
}
