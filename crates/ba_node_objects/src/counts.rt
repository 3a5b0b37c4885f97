//! How many objects a node has.
ghost use Rattle.std.specs.Prelude.{◌≡◌};
ghost use Rattle.ba_node_objects.specs.Objects.{node_of_fields};
ghost use Rattle.ba_node_objects.specs.inside.Counts.{FieldsFit, id_count};
ghost use Rattle.ba_node_steps.specs.Node.{last};
ghost use Rattle.ba_tree.specs.Lengths.{in_u64};

use crate::fields::Fields;
use ba_scope::Scope;

/// The greatest counter in use: each from 1 up to it is.
pub(crate) fn last(node: &Fields) -> u64
    requires { FieldsFit node.now }
    ensures { result ≡ last (node_of_fields node.now) }
{
    node.in_scopes.saturating_add(node.parts.len() as u64)
}

/// How many objects the scope is and has.
pub(crate) fn ids_of(scope: &Scope) -> u64
    ensures { result ≡ in_u64 (id_count scope.now) }
{
    let ends = scope.ends().len() as u64;
    match scope.up() {
        None => ends.saturating_add(1),
        Some(_) => ends.saturating_add(2),
    }
}
