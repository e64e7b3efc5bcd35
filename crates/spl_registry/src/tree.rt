//! What stands at the places of a TOML tree.
ghost use Rattle.std.specs.{Prelude.{◌≡◌, option_map, option_copied, IfOk}, List.list_all};
ghost use Rattle.toml.specs.{Data.get_member, View.{view, items_view, table_view, array_view}};
ghost use Rattle.spl_registry.specs.Nodes.{is_text, is_text_value, first_endpoint, member_text, list_at, entry_of};

use crate::node::Node;
use spl_base::NodeId;
use std::alloc::{AllocError, Global};
use toml::value::Array;
use toml::{Table, Value};

/// How many bytes a text of an entry has at most.
pub const LONGEST_TEXT: usize = 64;

/// Whether a text isn't empty, and no longer than it may be.
fn is_text(text: &str) -> bool
    ensures { result ≡ is_text text.now }
{
    1 <= text.len() && text.len() <= LONGEST_TEXT
}

/// The value at a key.
fn value_at<'a>(table: &'a Table, key: &str) -> Option<&'a Value>
    ensures { option_map (λ v. view v.now) result ≡ get_member key.now (table_view table.now) }
{
    table.get(key)
}

/// The text at a key.
fn text_at<'a>(table: &'a Table, key: &str) -> Option<&'a str>
    ensures { option_copied result ≡ member_text key.now (table_view table.now) }
{
    match value_at(table, key) {
        Some(value) => value.as_str(),
        None => None,
    }
}

/// The list at a key.
pub(crate) fn list_at<'a>(table: &'a Table, key: &str) -> Option<&'a Array>
    ensures { option_map (λ v. array_view v.now) result ≡ list_at key.now (table_view table.now) }
{
    match value_at(table, key) {
        Some(value) => value.as_array(),
        None => None,
    }
}

fn is_text_value(value: &Value) -> bool
    ensures { result ≡ is_text_value (view value.now) }
{
    match value.as_str() {
        Some(text) => is_text(text),
        None => false,
    }
}

fn all_texts(values: &[Value]) -> bool
    ensures { result ≡ list_all (λ v. is_text_value (view v)) values.now }
{
    values.iter().all(|value| is_text_value(value))
}

/// The first of 1 to 4 texts.
#[tactic(auto, using(crate::proofs::Trees::all_texts_view, crate::proofs::Trees::items_len_view, toml::proofs::Views::get_item_within))]
fn first_endpoint(values: &[Value]) -> Option<&str>
    ensures { option_copied result ≡ first_endpoint (items_view values.now) }
{
    if 1 <= values.len() && values.len() <= 4 && all_texts(values) {
        values[0].as_str()
    } else {
        None
    }
}

/// The node that a value spells.
pub(crate) fn entry_of(alloc: Global, value: &Value) -> Result<Option<Node>, AllocError>
    ensures { IfOk result (λ o. o ≡ entry_of (view value.now)) }
{
    let Some(table) = value.as_table() else {
        return Ok(None);
    };
    let Some(identity) = text_at(table, "identity") else {
        return Ok(None);
    };
    let Some(name) = text_at(table, "display_name") else {
        return Ok(None);
    };
    let Some(endpoints) = list_at(table, "endpoints") else {
        return Ok(None);
    };
    let Some(endpoint) = first_endpoint(endpoints.as_slice()) else {
        return Ok(None);
    };
    match NodeId::read(identity.as_bytes()) {
        Some(identity) if is_text(name) => {
            Ok(Some(Node::new(alloc, identity, endpoint.as_bytes())?))
        }
        _ => Ok(None),
    }
}
