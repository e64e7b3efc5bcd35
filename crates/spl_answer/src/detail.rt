//! The JSON of a circuit at a node.
ghost use Rattle.std.specs.Prelude.{◌≡◌, ◌++◌, IfOk, OnOk};
ghost use Rattle.serde_json.specs.{View.{view, members_view}, Written.compact_text};
ghost use Rattle.spl_answer.specs.Json.{put_all, fields_to_management, fields_from_mark, detail_value};

use crate::json::{Json, append_json, digits_of};
use crate::names::{lifecycle_name, mark_name};
use serde_json::{Map, Value, json, put};
use spl_base::NodeId;
use spl_circuit::{Definition, Lifecycle, Mark, Members, Service};
use std::alloc::{AllocError, Global};

impl Json for Service {
    ghost use Rattle.spl_answer.specs.Json.{service_value};

    ghost json = { service_value };

    #[tactic(auto, unfolding(crate::specs::Json::service_value))]
    fn to_json(&self, alloc: Global) -> Result<Value, AllocError> {
        json!(in alloc; {
            "node": self.node.to_json(alloc)?,
            "service": self.id.to_json(alloc)?,
            "type": self.kind.to_json(alloc)?,
        })
    }
}

/// Puts the members up to `management`.
#[tactic(auto, unfolding(crate::specs::Json::fields_to_management))]
fn put_to_management(
    map: &mut Map<String, Value>,
    alloc: Global,
    definition: &Definition,
    hash: &[u8],
    lifecycle: Lifecycle,
    accepted: &Members,
) -> Result<(), AllocError>
    ensures { OnOk result
        (members_view map.new.entries ≡ put_all (fields_to_management definition.now hash.now lifecycle accepted.now) (members_view map.old.entries)) }
{
    let accepted = accepted.to_json(alloc)?;
    put(map, alloc, "accepted", accepted)?;
    let generation = Value::from(definition.generation.0);
    put(map, alloc, "generation", generation)?;
    let hash = digits_of(alloc, hash)?;
    put(map, alloc, "hash", hash)?;
    let id = definition.id.to_json(alloc)?;
    put(map, alloc, "id", id)?;
    let lifecycle = Value::try_from_str(alloc, lifecycle_name(lifecycle))?;
    put(map, alloc, "lifecycle", lifecycle)?;
    let management = definition.management.to_json(alloc)?;
    put(map, alloc, "management", management)
}

/// Puts the members from `mark` on.
#[tactic(auto, unfolding(crate::specs::Json::fields_from_mark))]
fn put_from_mark(
    map: &mut Map<String, Value>,
    alloc: Global,
    definition: &Definition,
    mark: Mark,
    requester: &Option<NodeId>,
) -> Result<(), AllocError>
    ensures { OnOk result (members_view map.new.entries ≡ put_all (fields_from_mark definition.now mark requester.now) (members_view map.old.entries)) }
{
    let mark = Value::try_from_str(alloc, mark_name(mark))?;
    put(map, alloc, "mark", mark)?;
    let members = definition.members.to_json(alloc)?;
    put(map, alloc, "members", members)?;
    let name = definition.name.to_json(alloc)?;
    put(map, alloc, "name", name)?;
    let requester = requester.to_json(alloc)?;
    put(map, alloc, "requester", requester)?;
    let services = definition.services.to_json(alloc)?;
    put(map, alloc, "services", services)?;
    put(map, alloc, "version", Value::from(definition.version))
}

fn detail_of(
    alloc: Global,
    definition: &Definition,
    hash: &[u8],
    lifecycle: Lifecycle,
    mark: Mark,
    accepted: &Members,
    requester: &Option<NodeId>,
) -> Result<Value, AllocError>
    ensures { IfOk result (λ v. view v ≡ detail_value definition.now hash.now lifecycle mark accepted.now requester.now) }
{
    let mut map = Map::new(alloc);
    put_to_management(&mut map, alloc, definition, hash, lifecycle, accepted)?;
    put_from_mark(&mut map, alloc, definition, mark, requester)?;
    Ok(Value::Object(map))
}

/// Appends the JSON of a circuit with this definition and hash, and where it stands here.
#[tactic(auto, using(crate::proofs::Floats::detail_has_none))]
pub(crate) fn append_detail(
    definition: &Definition,
    hash: &[u8],
    lifecycle: Lifecycle,
    mark: Mark,
    accepted: &Members,
    requester: &Option<NodeId>,
    out: &mut Vec<u8>,
) -> Result<(), AllocError>
    ensures { OnOk result (out.new.items ≡ out.old.items ++ compact_text (detail_value definition.now hash.now lifecycle mark accepted.now requester.now)) }
{
    let value = detail_of(
        *out.allocator(),
        definition,
        hash,
        lifecycle,
        mark,
        accepted,
        requester,
    )?;
    append_json(&value, out)
}
