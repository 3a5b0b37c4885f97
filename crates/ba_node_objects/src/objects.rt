//! A node in memory, as its callers see it.
ghost use Rattle.std.specs.Prelude.{◌≡◌, ◌<◌, IfNone, IfSome, None, OnOk};
ghost use Rattle.std.specs.List.{find};
ghost use Rattle.ba_node_objects.specs.Changes.{Suits, changed_node};
ghost use Rattle.ba_node_objects.specs.Finds.{FindsEnd, FindsLone, FindsScope, FindsUp};
ghost use Rattle.ba_scope_ends.specs.Ends.{same_id};
ghost use Rattle.ba_node_steps.specs.Fits.{NodeFits};
ghost use Rattle.ba_node_steps.specs.Node.{end_place, last, new_node, nowhere, part_place, scope_with_id};
ghost use Rattle.ba_node_steps.specs.Shown.{deadline_of, in_scope, seen_at};

use crate::changes::Change;
use crate::fields::Fields;
use crate::finds::{FoundEnd, FoundLone, FoundScope, FoundUp};
use crate::{counts, finds, looks};
use ba_core::{Id, Memory, Octets};
use ba_node_steps::Seen;
use std::alloc::Global;
use std::marker::Model;

/// A node in memory: its scopes and its lone participants. It keeps no journal.
#[derive(Debug, Drop)]
pub struct Objects {
    fields: Fields,
}

impl Model for Objects {
    ghost use Rattle.ba_node_objects.specs.Objects.{NodeInMemory, in_memory};
    ghost use Rattle.ba_node_objects.specs.inside.Counts.{FieldsFit};
    ghost use Rattle.ba_tree.specs.contracts.trees.Content as content;
    ghost use Rattle.std.specs.Coded.{codes};

    ghost Value = { NodeInMemory };

    ghost coded = { Prim.hlevel (codes, content.the_row.coded) };

    ghost view = { λ o. in_memory o.fields };

    ghost invariant = { λ o. FieldsFit o.fields };
}

impl Objects {
    /// A node without objects.
    pub fn new(alloc: Global, number: u32, base: Octets) -> Objects
        ensures { result.node ≡ new_node number base }
    {
        Objects {
            fields: Fields::empty(alloc, number, base),
        }
    }

    /// Its number.
    pub fn number(&self) -> u32
        ensures { result ≡ self.now.node.number }
    {
        self.fields.number
    }

    /// The base of its addresses.
    pub fn base(&self) -> &[u8]
        ensures { result.now ≡ self.now.node.base }
    {
        self.fields.base.as_slice()
    }

    /// The greatest counter in use: each from 1 up to it is that of an object.
    pub fn last(&self) -> u64
        ensures { result ≡ last self.now.node }
    {
        counts::last(&self.fields)
    }

    /// Where its memory comes from.
    pub fn allocator(&self) -> Global {
        *self.fields.scopes.allocator()
    }

    // ---- what it shows

    /// What the object with this identifier shows.
    pub fn status(&self, id: Id) -> Option<Seen>
        ensures { result ≡ seen_at self.now.node id }
    {
        looks::status(&self.fields, id)
    }

    /// The deadline of the root with this identifier, in milliseconds, where it has no verdict.
    pub fn deadline(&self, scope: Id) -> Option<u64>
        ensures { result ≡ deadline_of self.now.node scope }
    {
        looks::deadline(&self.fields, scope)
    }

    /// What stands at this place, from 0, among the ends of this scope and, after them, its own participant.
    pub fn in_scope(&self, scope: Id, place: u32) -> Option<Id>
        ensures { result ≡ in_scope self.now.node scope place }
    {
        looks::in_scope(&self.fields, scope, place)
    }

    // ---- where its objects stand

    /// The scope with this identifier.
    pub fn find_scope<'a>(&'a self, id: Id) -> Option<FoundScope<'a>>
        ensures some { IfSome result (λ f. FindsScope self.now.node id f.place f.scope.now) }
        ensures none { IfNone result (scope_with_id self.now.node id ≡ None) }
    {
        finds::find_scope(&self.fields, id)
    }

    /// The end with this identifier.
    pub fn find_end<'a>(&'a self, id: Id) -> Option<FoundEnd<'a>>
        ensures some { IfSome result (λ f. FindsEnd self.now.node id f.place f.scope.now f.end.now) }
        ensures none { IfNone result (end_place self.now.node id ≡ None) }
    {
        finds::find_end(&self.fields, id)
    }

    /// The lone participant with this identifier.
    pub fn find_lone<'a>(&'a self, id: Id) -> Option<FoundLone<'a>>
        ensures some { IfSome result (λ f. FindsLone self.now.node id f.place f.part.now) }
        ensures none { IfNone result (find (λ p. same_id p.id id) self.now.node.parts ≡ None) }
    {
        finds::find_lone(&self.fields, id)
    }

    /// The scope's own participant with this identifier, which no lone participant has.
    pub fn find_up<'a>(&'a self, id: Id) -> Option<FoundUp<'a>>
        requires { find (λ p. same_id p.id id) self.now.node.parts ≡ None }
        ensures some { IfSome result (λ f. FindsUp self.now.node id f.place f.scope.now f.part.now) }
        ensures none { IfNone result (part_place self.now.node id ≡ nowhere) }
    {
        finds::find_up(&self.fields, id)
    }

    // ---- the doing

    /// Takes memory for one more scope and for one more lone participant, and for their places in the index.
    pub fn reserve(&mut self) -> Result<(), Memory>
        ensures node { self.new.node ≡ self.old.node }
        ensures room { OnOk result (0 < self.new.room) }
    {
        self.fields.reserve()
    }

    /// Changes what a plan is to change. It can't fail: where there is no memory for the index, a later look-up searches.
    pub fn apply(&mut self, change: Change)
        requires suits { Suits self.old change }
        requires fits { NodeFits self.old.node → NodeFits (changed_node self.old.node change) }
        ensures { self.new.node ≡ changed_node self.old.node change }
    {
        self.fields.apply(change);
    }
}
