//! What a node shows of its objects.
ghost use Rattle.std.specs.Prelude.{◌≡◌, slice_get};
ghost use Rattle.ba_node_objects.specs.Objects.{node_of_fields};
ghost use Rattle.ba_node_objects.specs.inside.Counts.{FieldsFit};
ghost use Rattle.ba_node_steps.specs.Shown.{deadline_of, in_scope, object_ids, pending_deadline, seen_at};

use crate::fields::Fields;
use crate::finds::{find_end, find_lone, find_scope, find_up};
use ba_core::Id;
use ba_node_steps::Seen;
use ba_scope::Scope;

/// What the object with this identifier shows.
pub(crate) fn status(node: &Fields, id: Id) -> Option<Seen>
    requires { FieldsFit node.now }
    ensures { result ≡ seen_at (node_of_fields node.now) id }
{
    if let Some(found) = find_scope(node, id) {
        return Some(Seen::Scope(found.scope.kind(), found.scope.verdict()));
    }
    if let Some(found) = find_end(node, id) {
        let end = found.end;
        return Some(Seen::End(end.protocol, end.state, end.verdict));
    }
    if let Some(found) = find_lone(node, id) {
        return Some(Seen::Part(found.part.protocol, found.part.state, true));
    }
    match find_up(node, id) {
        None => None,
        Some(found) => Some(Seen::Part(found.part.protocol, found.part.state, false)),
    }
}

/// The deadline of the root with this identifier, where it has no verdict.
pub(crate) fn deadline(node: &Fields, scope: Id) -> Option<u64>
    requires { FieldsFit node.now }
    ensures { result ≡ deadline_of (node_of_fields node.now) scope }
{
    match find_scope(node, scope) {
        None => None,
        Some(found) => pending(found.scope),
    }
}

fn pending(scope: &Scope) -> Option<u64>
    ensures { result ≡ pending_deadline scope.now }
{
    if scope.up().is_none() && scope.verdict().is_none() {
        scope.deadline()
    } else {
        None
    }
}

/// The identifier at this place among the ends of this scope and, after them, its own participant.
pub(crate) fn in_scope(node: &Fields, scope: Id, place: u32) -> Option<Id>
    requires { FieldsFit node.now }
    ensures { result ≡ in_scope (node_of_fields node.now) scope place }
{
    match find_scope(node, scope) {
        None => None,
        Some(found) => object_at(found.scope, place as usize),
    }
}

fn object_at(scope: &Scope, place: usize) -> Option<Id>
    ensures { result ≡ slice_get (object_ids scope.now) place }
{
    let ends = scope.ends();
    if place < ends.len() {
        return Some(ends[place].id);
    }
    match scope.up() {
        Some(up) if place == ends.len() => Some(up.id),
        _ => None,
    }
}
