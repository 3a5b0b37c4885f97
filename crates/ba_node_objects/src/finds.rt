//! Where an object of a node stands.
ghost use Rattle.std.specs.Prelude.{◌≡◌, ◌<◌, IfSome, IfNone, IsTrue, None, is_some, length, position, slice_get};
ghost use Rattle.std.specs.List.{find};
ghost use Rattle.ba_node_objects.specs.Objects.{node_of_fields};
ghost use Rattle.ba_node_objects.specs.Finds.{FindsEnd, FindsLone, FindsScope, FindsUp};
ghost use Rattle.ba_node_objects.specs.inside.Counts.{FieldsFit};
ghost use Rattle.ba_node_objects.specs.inside.Spots.{StandsAt, has_object, may_be_used};
ghost use Rattle.ba_scope_ends.specs.Ends.{end_with_id, same_id};
ghost use Rattle.ba_scope.specs.Scope.{is_id_above};
ghost use Rattle.ba_node_steps.specs.Node.{end_place, nowhere, part_place, scope_with_id};

use crate::counts::last;
use crate::fields::Fields;
use crate::spots::Spot;
use ba_core::Id;
use ba_scope::Scope;
use ba_scope_ends::{End, Part};

/// A scope, and its place.
#[derive(Drop)]
pub struct FoundScope<'a> {
    pub place: usize,
    pub scope: &'a Scope,
}

/// An end, and its scope with its place.
#[derive(Drop)]
pub struct FoundEnd<'a> {
    pub place: usize,
    pub scope: &'a Scope,
    pub end: &'a End,
}

/// A lone participant, and its place.
#[derive(Drop)]
pub struct FoundLone<'a> {
    pub place: usize,
    pub part: &'a Part,
}

/// A scope's own participant, and the scope with its place.
#[derive(Drop)]
pub struct FoundUp<'a> {
    pub place: usize,
    pub scope: &'a Scope,
    pub part: &'a Part,
}

/// The scope with this identifier.
pub(crate) fn find_scope<'a>(node: &'a Fields, id: Id) -> Option<FoundScope<'a>>
    requires { FieldsFit node.now }
    ensures some { IfSome result (λ f. FindsScope (node_of_fields node.now) id f.place f.scope.now) }
    ensures none { IfNone result (scope_with_id (node_of_fields node.now) id ≡ None) }
{
    match place_of_scope(node, id) {
        None => None,
        Some(place) => Some(FoundScope {
            place,
            scope: &node.scopes[place],
        }),
    }
}

fn place_of_scope(node: &Fields, id: Id) -> Option<usize>
    requires { FieldsFit node.now }
    ensures some { IfSome result (λ k. find (λ s. same_id s.id id) node.now.scopes.items ≡ slice_get node.now.scopes.items k) }
    ensures within { IfSome result (λ k. k < length node.now.scopes.items) }
    ensures none { IfNone result (find (λ s. same_id s.id id) node.now.scopes.items ≡ None) }
{
    match spot_of(node, id) {
        Some(Spot::InScope(place)) => {
            if node.scopes[place].id() == id {
                Some(place)
            } else {
                None
            }
        }
        Some(Spot::Lone(_)) => None,
        Some(Spot::Nowhere) => None,
        None => position_of_scope(&node.scopes, id),
    }
}

fn position_of_scope(scopes: &[Scope], id: Id) -> Option<usize>
    ensures { result ≡ position (λ s. same_id s.id id) scopes.now }
{
    scopes.iter().position(|scope| scope.id() == id)
}

/// The end with this identifier.
pub(crate) fn find_end<'a>(node: &'a Fields, id: Id) -> Option<FoundEnd<'a>>
    requires { FieldsFit node.now }
    ensures some { IfSome result (λ f. FindsEnd (node_of_fields node.now) id f.place f.scope.now f.end.now) }
    ensures none { IfNone result (end_place (node_of_fields node.now) id ≡ None) }
{
    match place_with_end(node, id) {
        None => None,
        Some(place) => {
            let scope = &node.scopes[place];
            match scope.end(id) {
                None => None,
                Some(end) => Some(FoundEnd { place, scope, end }),
            }
        }
    }
}

// The place of the scope that has an end with this identifier.
fn place_with_end(node: &Fields, id: Id) -> Option<usize>
    requires { FieldsFit node.now }
    ensures some { IfSome result (λ k. find (λ s. is_some (end_with_id s.ends id)) node.now.scopes.items ≡ slice_get node.now.scopes.items k) }
    ensures within { IfSome result (λ k. k < length node.now.scopes.items) }
    ensures none { IfNone result (find (λ s. is_some (end_with_id s.ends id)) node.now.scopes.items ≡ None) }
{
    match spot_of(node, id) {
        Some(Spot::InScope(place)) => {
            if has_end(&node.scopes[place], id) {
                Some(place)
            } else {
                None
            }
        }
        Some(Spot::Lone(_)) => None,
        Some(Spot::Nowhere) => None,
        None => position_with_end(&node.scopes, id),
    }
}

fn position_with_end(scopes: &[Scope], id: Id) -> Option<usize>
    ensures { result ≡ position (λ s. is_some (end_with_id s.ends id)) scopes.now }
{
    scopes.iter().position(|scope| has_end(scope, id))
}

fn has_end(scope: &Scope, id: Id) -> bool
    ensures { result ≡ is_some (end_with_id scope.now.ends id) }
{
    scope.end(id).is_some()
}

/// The lone participant with this identifier.
pub(crate) fn find_lone<'a>(node: &'a Fields, id: Id) -> Option<FoundLone<'a>>
    requires { FieldsFit node.now }
    ensures some { IfSome result (λ f. FindsLone (node_of_fields node.now) id f.place f.part.now) }
    ensures none { IfNone result (find (λ p. same_id p.id id) (node_of_fields node.now).parts ≡ None) }
{
    match place_of_lone(node, id) {
        None => None,
        Some(place) => Some(FoundLone {
            place,
            part: &node.parts[place],
        }),
    }
}

fn place_of_lone(node: &Fields, id: Id) -> Option<usize>
    requires { FieldsFit node.now }
    ensures some { IfSome result (λ k. find (λ p. same_id p.id id) node.now.parts.items ≡ slice_get node.now.parts.items k) }
    ensures within { IfSome result (λ k. k < length node.now.parts.items) }
    ensures none { IfNone result (find (λ p. same_id p.id id) node.now.parts.items ≡ None) }
{
    match spot_of(node, id) {
        Some(Spot::InScope(_)) => None,
        Some(Spot::Lone(place)) => Some(place),
        Some(Spot::Nowhere) => None,
        None => position_of_lone(&node.parts, id),
    }
}

fn position_of_lone(parts: &[Part], id: Id) -> Option<usize>
    ensures { result ≡ position (λ p. same_id p.id id) parts.now }
{
    parts.iter().position(|part| part.id == id)
}

/// The scope's own participant with this identifier, which no lone participant has.
pub(crate) fn find_up<'a>(node: &'a Fields, id: Id) -> Option<FoundUp<'a>>
    requires fits { FieldsFit node.now }
    requires alone { find (λ p. same_id p.id id) (node_of_fields node.now).parts ≡ None }
    ensures some { IfSome result (λ f. FindsUp (node_of_fields node.now) id f.place f.scope.now f.part.now) }
    ensures none { IfNone result (part_place (node_of_fields node.now) id ≡ nowhere) }
{
    match place_below(node, id) {
        None => None,
        Some(place) => {
            let scope = &node.scopes[place];
            match scope.up() {
                None => None,
                Some(part) => Some(FoundUp { place, scope, part }),
            }
        }
    }
}

// The place of the scope whose own participant has this identifier.
fn place_below(node: &Fields, id: Id) -> Option<usize>
    requires { FieldsFit node.now }
    ensures some { IfSome result (λ k. find (λ s. is_id_above s.up id) node.now.scopes.items ≡ slice_get node.now.scopes.items k) }
    ensures within { IfSome result (λ k. k < length node.now.scopes.items) }
    ensures none { IfNone result (find (λ s. is_id_above s.up id) node.now.scopes.items ≡ None) }
{
    match spot_of(node, id) {
        Some(Spot::InScope(place)) => {
            if has_up(&node.scopes[place], id) {
                Some(place)
            } else {
                None
            }
        }
        Some(Spot::Lone(_)) => None,
        Some(Spot::Nowhere) => None,
        None => position_below(&node.scopes, id),
    }
}

fn position_below(scopes: &[Scope], id: Id) -> Option<usize>
    ensures { result ≡ position (λ s. is_id_above s.up id) scopes.now }
{
    scopes.iter().position(|scope| has_up(scope, id))
}

fn has_up(scope: &Scope, id: Id) -> bool
    ensures { result ≡ is_id_above scope.now.up id }
{
    match scope.up() {
        None => false,
        Some(part) => part.id == id,
    }
}

// Where the object with this identifier stands, where that is known without a search.
fn spot_of(node: &Fields, id: Id) -> Option<Spot>
    requires { FieldsFit node.now }
    ensures { IfSome result (λ spot. StandsAt (node_of_fields node.now) id spot) }
{
    if !may_be_used(node, id) {
        return Some(Spot::Nowhere);
    }
    match node.spots.guess(id) {
        Some(spot) if stands_at(node, id, spot) => Some(spot),
        _ => None,
    }
}

// Whether the identifier may be in use, by its node and its counter.
fn may_be_used(node: &Fields, id: Id) -> bool
    requires { FieldsFit node.now }
    ensures { result ≡ may_be_used (node_of_fields node.now) id }
{
    let counter = id.counter();
    1 <= counter && counter <= last(node) && Id::of(node.number, counter) == id
}

// Whether the object with this identifier stands there.
fn stands_at(node: &Fields, id: Id, spot: Spot) -> bool
    ensures { IsTrue result → StandsAt (node_of_fields node.now) id spot }
{
    match spot {
        Spot::InScope(place) => place < node.scopes.len() && has_object(&node.scopes[place], id),
        Spot::Lone(place) => place < node.parts.len() && node.parts[place].id == id,
        Spot::Nowhere => false,
    }
}

fn has_object(scope: &Scope, id: Id) -> bool
    ensures { result ≡ has_object scope.now id }
{
    scope.id() == id || has_up(scope, id) || has_end(scope, id)
}
