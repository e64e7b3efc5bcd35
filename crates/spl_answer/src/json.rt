//! JSON values.
ghost use Rattle.std.specs.{Prelude.{◌≡◌, ◌++◌, false, IfOk, OnOk}, Str.IsAscii};
ghost use Rattle.serde_json.specs.{Data.{Data, string}, View.view, Written.{has_float, compact_text}};
ghost use Rattle.spl_answer.specs.Json.{digits};

use crate::part::append;
use hex::encode;
use serde_json::Value;
use spl_base::{CircuitId, Label, Listing, NodeId, Piece, ServiceId};
use std::alloc::{AllocError, Global};

/// A value that has a JSON value.
pub(crate) trait Json: Drop {
    ghost json: { Self → Data };

    /// Its JSON value. Fails only where memory runs out.
    fn to_json(&self, alloc: Global) -> Result<Value, AllocError>
        ensures { IfOk result (λ v. view v ≡ json self.now) };
}

/// The ASCII text of these bytes.
fn text_of(alloc: Global, bytes: &[u8]) -> Result<Value, AllocError>
    requires { IsAscii bytes.now }
    ensures { IfOk result (λ v. view v ≡ string bytes.now) }
{
    match std::str::from_utf8(bytes) {
        Ok(text) => Value::try_from_str(alloc, text),
        Err(_) => unreachable!(),
    }
}

impl Json for NodeId {
    ghost json = { string };

    #[tactic(auto, using(crate::proofs::Ascii::node_is_ascii))]
    fn to_json(&self, alloc: Global) -> Result<Value, AllocError> {
        text_of(alloc, self.bytes())
    }
}

impl Json for Label {
    ghost json = { string };

    #[tactic(auto, using(crate::proofs::Ascii::label_is_ascii))]
    fn to_json(&self, alloc: Global) -> Result<Value, AllocError> {
        text_of(alloc, self.bytes())
    }
}

impl Json for ServiceId {
    ghost json = { string };

    #[tactic(auto, using(crate::proofs::Ascii::service_is_ascii))]
    fn to_json(&self, alloc: Global) -> Result<Value, AllocError> {
        text_of(alloc, self.bytes())
    }
}

impl Json for CircuitId {
    ghost json = { string };

    #[tactic(auto, using(crate::proofs::Ascii::circuit_is_ascii))]
    fn to_json(&self, alloc: Global) -> Result<Value, AllocError> {
        text_of(alloc, self.bytes())
    }
}

/// The bytes as lower-case digits.
pub(crate) fn digits_of(alloc: Global, bytes: &[u8]) -> Result<Value, AllocError>
    ensures { IfOk result (λ v. view v ≡ digits bytes.now) }
{
    Ok(Value::String(encode(alloc, bytes)?))
}

impl Json for Piece {
    ghost use Rattle.spl_answer.specs.Json.{digits};

    ghost json = { digits };

    fn to_json(&self, alloc: Global) -> Result<Value, AllocError> {
        digits_of(alloc, self.bytes())
    }
}

impl Json for Option<NodeId> {
    ghost use Rattle.spl_answer.specs.Json.{text_or_null};

    ghost json = { text_or_null };

    fn to_json(&self, alloc: Global) -> Result<Value, AllocError> {
        match self {
            Some(node) => node.to_json(alloc),
            None => Ok(Value::Null),
        }
    }
}

impl<T: Json> Json for Listing<T> {
    ghost use Rattle.spl_answer.specs.Json.{list};

    ghost json = { list T.json };

    fn to_json(&self, alloc: Global) -> Result<Value, AllocError> {
        let mut values = Vec::with_capacity(alloc, self.len())?;
        for item in self.as_slice() {
            values.push(item.to_json(alloc)?)?;
        }
        Ok(Value::Array(values))
    }
}

/// Appends the text of a value without floats.
pub(crate) fn append_json(value: &Value, out: &mut Vec<u8>) -> Result<(), AllocError>
    requires { has_float (view value.now) ≡ false }
    ensures { OnOk result (out.new.items ≡ out.old.items ++ compact_text (view value.now)) }
{
    let text = value.to_vec(*out.allocator())?;
    append(text.as_slice(), out)
}
