//! A service, as a word.
use spl_base::{Label, NodeId, ServiceId, Writer};
use spl_circuit::Service;
use spl_words::{LineFault, Word, WordReader, take};
use std::alloc::{AllocError, Global};

/// The type of a service, which has the grammar of a node's id.
pub(crate) struct ServiceType;

impl Word for ServiceType {
    ghost use Rattle.spl_words.specs.Words.{text};
    ghost use Rattle.spl_sched.specs.Grammar.{is_type};

    type Value = Label;

    ghost word = { text is_type };

    #[tactic(auto, using(crate::proofs::GrammarLaws::type_is_label))]
    fn read(_alloc: Global, bytes: &[u8]) -> Result<Label, LineFault> {
        if NodeId::read(bytes).is_none() {
            return Err(LineFault::BadLine);
        }
        Label::read(bytes).ok_or(LineFault::BadLine)
    }

    fn put(value: &Label, w: &mut Writer) -> Result<(), AllocError> {
        w.put_raw(value.bytes())
    }
}

/// SERVICE:TYPE:NODE.
pub(crate) struct ServiceText;

impl Word for ServiceText {
    ghost use Rattle.spl_sched.specs.Grammar.{service_word};

    type Value = Service;

    ghost word = { service_word };

    fn read(alloc: Global, bytes: &[u8]) -> Result<Service, LineFault> {
        let mut words = WordReader::new(bytes, b':');
        let id = take::<ServiceId>(alloc, &mut words)?;
        let kind = take::<ServiceType>(alloc, &mut words)?;
        let node = take::<NodeId>(alloc, &mut words)?;
        words.end()?;
        Ok(Service { id, kind, node })
    }

    fn put(value: &Service, w: &mut Writer) -> Result<(), AllocError> {
        ServiceId::put(&value.id, w)?;
        w.put_u8(b':')?;
        ServiceType::put(&value.kind, w)?;
        w.put_u8(b':')?;
        NodeId::put(&value.node, w)
    }
}
