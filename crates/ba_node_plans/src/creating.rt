//! A scope or a lone participant is to be made.
ghost use Rattle.std.specs.Prelude.{◌≡◌, ◌<◌, ◌≤◌, IfOk, IfSome, IsTrue, None};
ghost use Rattle.std.specs.Option.{option_map};
ghost use Rattle.ba_node_objects.specs.Changes.{Suits};
ghost use Rattle.ba_node_plans.specs.Proposals.{proposed_step};
ghost use Rattle.ba_node_plans.specs.inside.Joining.{join_step};
ghost use Rattle.ba_scope.specs.Fits.{up_fits};
ghost use Rattle.ba_scope_ends.specs.Parts.{is_registering};
ghost use Rattle.ba_node_steps.specs.Fits.{HasSpareCounters};
ghost use Rattle.ba_node_steps.specs.Node.{next_id};
ghost use Rattle.ba_node_steps.specs.Steps.{create_child, create_scope, deadline_after, is_of_kind, new_context, new_part, on_create, on_join, upward_fields};

use crate::proposals::Proposal;
use crate::states::can_dial;
use ba_core::{BAD_ADDRESS, Code, Id, Kind, Memory, PState, Protocol};
use ba_message::{Context, Epr};
use ba_node_addresses::{context_identifier, registration_of};
use ba_node_objects::{Change, Objects};
use ba_node_steps::{Reply, Wake};
use ba_record::Record;
use ba_scope::Scope;
use ba_scope_ends::Part;
use std::alloc::Global;

// ---- a scope

/// A scope is to be made at this moment, in milliseconds: a root, or with a current context a child, whose own participant
/// registers there by the protocol `up`. Its deadline is `expires` milliseconds later (WS-Coordination 1.2, section 3.1).
pub fn create(
    node: &mut Objects,
    now: u64,
    expires: Option<u32>,
    current: Option<Context>,
    kind: Option<Kind>,
    up: Protocol,
) -> Result<Proposal, Memory>
    requires { HasSpareCounters node.old.node }
    ensures node { node.new.node ≡ node.old.node }
    ensures step { IfOk result (λ proposal. proposed_step node.old.node proposal ≡ on_create node.old.node now expires current kind up) }
    ensures suits { IfOk result (λ proposal. Suits node.new proposal.change) }
{
    match kind {
        None => Ok(Proposal::fault(Code::CannotCreateContext)),
        Some(kind) => match current {
            None => create_root(node, now, expires, kind),
            Some(current) => create_child(node, now, expires, kind, current, up),
        },
    }
}

fn create_root(
    node: &mut Objects,
    now: u64,
    expires: Option<u32>,
    kind: Kind,
) -> Result<Proposal, Memory>
    requires { HasSpareCounters node.old.node }
    ensures node { node.new.node ≡ node.old.node }
    ensures step { IfOk result (λ proposal. proposed_step node.old.node proposal ≡ create_scope node.old.node now expires kind None Wake.Nobody) }
    ensures suits { IfOk result (λ proposal. Suits node.new proposal.change) }
{
    node.reserve()?;
    make_scope(node, now, expires, kind, None, Wake::Nobody)
}

fn create_child(
    node: &mut Objects,
    now: u64,
    expires: Option<u32>,
    kind: Kind,
    current: Context,
    protocol: Protocol,
) -> Result<Proposal, Memory>
    requires { HasSpareCounters node.old.node }
    ensures node { node.new.node ≡ node.old.node }
    ensures step { IfOk result (λ proposal. proposed_step node.old.node proposal ≡ create_child node.old.node now expires kind current protocol) }
    ensures suits { IfOk result (λ proposal. Suits node.new proposal.change) }
{
    let Context {
        identifier: _,
        expires: _,
        kind: of_current,
        registration,
    } = current;
    if !is_of_kind(kind, of_current) {
        return Ok(Proposal::fault(Code::CannotCreateContext));
    }
    if !can_dial(registration.address.as_slice()) {
        return Ok(Proposal::fault(Code::InvalidParameters));
    }
    node.reserve()?;
    let id = next_id(node, 2);
    let up = new_part(id, protocol, registration);
    make_scope(node, now, expires, kind, Some(up), Wake::One(id))
}

fn make_scope(
    node: &Objects,
    now: u64,
    expires: Option<u32>,
    kind: Kind,
    up: Option<Part>,
    wake: Wake,
) -> Result<Proposal, Memory>
    requires spare { HasSpareCounters node.now.node }
    requires room { 0 < node.now.room }
    requires registering { IfSome up (λ part. IsTrue (is_registering (Some part))) }
    requires up_fits { IsTrue (up_fits up) }
    ensures step { IfOk result (λ proposal. proposed_step node.now.node proposal ≡ create_scope node.now.node now expires kind up wake) }
    ensures suits { IfOk result (λ proposal. Suits node.now proposal.change) }
{
    let alloc = node.allocator();
    let id = next_id(node, 1);
    let deadline = deadline_after(now, expires);
    let above = upward_fields(alloc, &up)?;
    let context = new_context(node, id, kind, expires)?;
    Ok(Proposal {
        reply: Reply::Context(context),
        wake,
        written: Some(Record::Scope(id.counter(), kind, deadline, above)),
        change: Change::NewScope(Scope::make(alloc, id, kind, deadline, up)),
    })
}

/// The identifier of the object that is made next, or of the one after it.
pub fn next_id(node: &Objects, further: u64) -> Id
    requires spare { HasSpareCounters node.now.node }
    requires few { further ≤ 2 }
    ensures { result ≡ next_id node.now.node further }
{
    Id::of(node.number(), node.last() + further)
}

fn is_of_kind(kind: Kind, other: Option<Kind>) -> bool
    ensures { result ≡ is_of_kind kind other }
{
    match (kind, other) {
        (Kind::Atomic, Some(Kind::Atomic)) | (Kind::Mixed, Some(Kind::Mixed)) => true,
        _ => false,
    }
}

fn deadline_after(now: u64, expires: Option<u32>) -> Option<u64>
    ensures { result ≡ deadline_after now expires }
{
    match expires {
        None => None,
        Some(milliseconds) => Some(now.saturating_add(u64::from(milliseconds))),
    }
}

fn upward_fields(alloc: Global, up: &Option<Part>) -> Result<Option<(Protocol, Epr)>, Memory>
    ensures { IfOk result (λ above. above ≡ option_map upward_fields up.now) }
{
    match up {
        None => Ok(None),
        Some(part) => {
            let registration = part.registration.copy(alloc)?;
            Ok(Some((part.protocol, registration)))
        }
    }
}

fn new_context(node: &Objects, id: Id, kind: Kind, expires: Option<u32>) -> Result<Context, Memory>
    requires { id ≡ next_id node.now.node 1 }
    ensures { IfOk result (λ context. context ≡ new_context node.now.node kind expires) }
{
    let alloc = node.allocator();
    let identifier = context_identifier(alloc, id)?;
    let registration = registration_of(alloc, node.base(), id)?;
    Ok(Context {
        identifier,
        expires,
        kind: Some(kind),
        registration,
    })
}

// A participant that registers there.
fn new_part(id: Id, protocol: Protocol, registration: Epr) -> Part
    ensures { result ≡ new_part id protocol registration }
{
    Part {
        id,
        protocol,
        registration,
        coordinator: None,
        state: PState::Registering,
        owes: false,
        asks: false,
    }
}

// ---- a lone participant

/// A participant is to be made that registers there.
pub fn join(node: &mut Objects, protocol: Protocol, registration: Epr) -> Result<Proposal, Memory>
    requires { HasSpareCounters node.old.node }
    ensures node { node.new.node ≡ node.old.node }
    ensures step { IfOk result (λ proposal. proposed_step node.old.node proposal ≡ on_join node.old.node protocol registration) }
    ensures suits { IfOk result (λ proposal. Suits node.new proposal.change) }
{
    if !can_dial(registration.address.as_slice()) {
        return Ok(Proposal::refused(BAD_ADDRESS, Id::of(node.number(), 0)));
    }
    node.reserve()?;
    make_part(node, protocol, registration)
}

fn make_part(node: &Objects, protocol: Protocol, registration: Epr) -> Result<Proposal, Memory>
    requires spare { HasSpareCounters node.now.node }
    requires room { 0 < node.now.room }
    ensures step { IfOk result (λ proposal. proposed_step node.now.node proposal ≡ join_step node.now.node protocol registration) }
    ensures suits { IfOk result (λ proposal. Suits node.now proposal.change) }
{
    let id = next_id(node, 1);
    let kept = registration.copy(node.allocator())?;
    Ok(Proposal {
        reply: Reply::Joined(id),
        wake: Wake::One(id),
        written: Some(Record::Part(id.counter(), protocol, kept)),
        change: Change::NewPart(new_part(id, protocol, registration)),
    })
}
