//! Where a node of a world is.
ghost use Rattle.std.specs.Prelude.{◌≡◌, IfOk};
ghost use Rattle.std.specs.List.{find};
ghost use Rattle.std.specs.Option.{option_map};
ghost use Rattle.ba_core.specs.declared.identifiers.Id.{Id as Name};
ghost use Rattle.ba_scope_ends.specs.Ends.{same_id};
ghost use Rattle.ba_ports_memory.specs.DiskValue.{MediumValue};
ghost use Rattle.ba_world_runs.specs.World.{WorldNode};
ghost use Rattle.ba_node_steps.specs.Node.{scope_with_id};
ghost use Rattle.ba_world_places.specs.Places.{IsPlaceOf, disk_at, kind_among};
ghost use Rattle.ba_world_places.specs.inside.Calls.{known_with};

use ba_core::{Id, Kind, List, Memory};
use ba_node::Node;
use ba_node_steps::Seen;
use ba_ports_memory::MemDisk;
use std::alloc::Global;

/// A scope of a node that is down, as its records have it.
#[derive(Clone, Copy, Debug, PartialEq, Eq)]
pub struct KnownScope {
    pub id: Id,
    pub kind: Kind,
}

/// A node of a world.
#[derive(Drop)]
pub enum Place {
    /// It works, or its disk has failed.
    Up(Node<MemDisk>),
    /// Its machine has stopped: its disk, and the scopes that are known of it.
    Down(MemDisk, List<KnownScope>),
}

impl Place {
    /// The kind of the scope with this identifier.
    pub fn scope_kind(&self, id: Id) -> Option<Kind>
        ensures { (n : WorldNode) (disk : MediumValue) → IsPlaceOf n disk self.now
            → result ≡ option_map (λ s. s.kind) (scope_with_id n.state id) }
    {
        match self {
            Place::Up(node) => kind_at(node, id),
            Place::Down(_, known) => kind_among(known.as_slice(), id),
        }
    }

    /// Its disk, and the scopes that its records make.
    pub fn into_parts(self, alloc: Global) -> Result<(MemDisk, List<KnownScope>), Memory>
        ensures disk { IfOk result (λ parts. parts.0 ≡ disk_at self) }
        ensures scopes { IfOk result (λ parts. (n : WorldNode) (disk : MediumValue) → IsPlaceOf n disk self
            → (id : Name) → kind_among parts.1 id ≡ option_map (λ s. s.kind) (scope_with_id n.state id)) }
    {
        match self {
            Place::Down(disk, known) => Ok((disk, known)),
            Place::Up(node) => {
                let known = scopes_of(alloc, &node)?;
                Ok((node.into_disk(), known))
            }
        }
    }

    /// Its disk, with nothing done to it.
    pub fn into_disk(self) -> MemDisk
        ensures { result ≡ disk_at self }
    {
        match self {
            Place::Down(disk, _) => disk,
            Place::Up(node) => node.into_disk(),
        }
    }
}

// The first of these with this identifier.
fn first_known(known: &[KnownScope], id: Id) -> Option<&KnownScope>
    ensures { option_map (λ k. k.now) result ≡ find (λ k. same_id k.id id) known.now }
{
    known.iter().find(|scope| scope.id == id)
}

// The kind of the scope with this identifier among these.
fn kind_among(known: &[KnownScope], id: Id) -> Option<Kind>
    ensures { result ≡ kind_among known.now id }
{
    match first_known(known, id) {
        Some(scope) => Some(scope.kind),
        None => None,
    }
}

// The kind of the node's scope with this identifier.
fn kind_at(node: &Node<MemDisk>, id: Id) -> Option<Kind>
    ensures { result ≡ option_map (λ s. s.kind) (scope_with_id node.now.node id) }
{
    match node.status(id) {
        Some(Seen::Scope(kind, _)) => Some(kind),
        _ => None,
    }
}

// The scopes that are known, and this one after them, where it is a scope.
fn known_with(
    known: List<KnownScope>,
    id: Id,
    kind: Option<Kind>,
) -> Result<List<KnownScope>, Memory>
    ensures { IfOk result (λ more. more ≡ known_with known id kind) }
{
    let mut known = known;
    match kind {
        None => Ok(known),
        Some(kind) => match known.push(KnownScope { id, kind }) {
            Ok(()) => Ok(known),
            Err(_) => Err(Memory),
        },
    }
}

/// The scopes of a node, each with its kind.
pub(crate) fn scopes_of(alloc: Global, node: &Node<MemDisk>) -> Result<List<KnownScope>, Memory>
    ensures { IfOk result (λ known. (id : Name) → kind_among known id ≡ option_map (λ s. s.kind) (scope_with_id node.now.node id)) }
{
    let mut known = List::new(alloc);
    let number = node.number();
    let last = node.last();
    for counter in 1..last + 1 {
        let id = Id::of(number, counter);
        let more = known_with(known, id, kind_at(node, id))?;
        known = more;
    }
    Ok(known)
}
