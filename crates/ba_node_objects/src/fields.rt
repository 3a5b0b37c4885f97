//! The fields of a node.
ghost use Rattle.std.specs.Prelude.{◌≡◌, ◌<◌, OnOk};
ghost use Rattle.ba_node_objects.specs.Changes.{Suits, changed_node};
ghost use Rattle.ba_node_objects.specs.Objects.{in_memory, node_of_fields, room_of};
ghost use Rattle.ba_node_objects.specs.inside.Counts.{FieldsFit, IsCounted};
ghost use Rattle.ba_node_steps.specs.Node.{new_node, with_new_scope};

use crate::changes::{Change, ScopeChange, change_part, change_scope};
use crate::counts::ids_of;
use crate::spots::Spots;
use ba_core::{Memory, Octets};
use ba_scope::Scope;
use ba_scope_ends::Part;
use std::alloc::Global;

/// The fields of a node. They may not fit each other: `Objects` keeps that they do.
#[derive(Debug, Drop)]
pub struct Fields {
    pub number: u32,
    pub base: Octets,
    pub version: u32,
    pub scopes: Vec<Scope>,
    pub parts: Vec<Part>,
    /// How many objects the scopes are and have.
    pub in_scopes: u64,
    pub spots: Spots,
}

impl Fields {
    /// Those of a node without objects.
    pub fn empty(alloc: Global, number: u32, base: Octets) -> Fields
        ensures node { node_of_fields result ≡ new_node number base }
        ensures count { IsCounted result }
    {
        Fields {
            number,
            base,
            version: 1,
            scopes: Vec::new(alloc),
            parts: Vec::new(alloc),
            in_scopes: 0,
            spots: Spots::empty(alloc),
        }
    }

    /// Takes memory for one more scope and for one more lone participant, and for their spots.
    pub fn reserve(&mut self) -> Result<(), Memory>
        ensures node { node_of_fields self.new ≡ node_of_fields self.old }
        ensures count { IsCounted self.old → IsCounted self.new }
        ensures room { OnOk result (0 < room_of self.new) }
    {
        if self.scopes.reserve(1).is_err() || self.parts.reserve(1).is_err() {
            return Err(Memory);
        }
        self.spots.reserve()
    }

    /// Changes what is to be changed.
    pub fn apply(&mut self, change: Change)
        requires suits { Suits (in_memory self.old) change }
        requires fits { FieldsFit self.old }
        ensures node { node_of_fields self.new ≡ changed_node (node_of_fields self.old) change }
        ensures count { IsCounted self.new }
    {
        self.spots
            .learn(&change, self.scopes.len(), self.parts.len());
        match change {
            Change::Nothing => {}
            Change::Scope(place, change) => self.change_scope(place, change),
            Change::Part(place, change) => change_part(&mut self.parts[place], change),
            Change::NewScope(scope) => self.push_scope(scope),
            Change::NewPart(part) => self.parts.push_reserved(part),
        }
    }

    fn change_scope(&mut self, place: usize, change: ScopeChange)
        requires suits { Suits (in_memory self.old) (Change.Scope place change) }
        requires fits { FieldsFit self.old }
        ensures node { node_of_fields self.new ≡ changed_node (node_of_fields self.old) (Change.Scope place change) }
        ensures count { IsCounted self.new }
    {
        let scope = &mut self.scopes[place];
        let before = ids_of(scope);
        change_scope(scope, change);
        let after = ids_of(scope);
        self.in_scopes = (self.in_scopes - before).saturating_add(after);
    }

    fn push_scope(&mut self, scope: Scope)
        requires room { 0 < room_of self.old }
        requires count { IsCounted self.old }
        ensures node { node_of_fields self.new ≡ with_new_scope (node_of_fields self.old) scope }
        ensures count { IsCounted self.new }
    {
        self.in_scopes = self.in_scopes.saturating_add(ids_of(&scope));
        self.scopes.push_reserved(scope);
    }
}
