//! A participant registers at a scope.
ghost use Rattle.std.specs.Prelude.{◌≡◌, IfOk, None};
ghost use Rattle.std.specs.Option.{option_map};
ghost use Rattle.ba_message.specs.Endpoints.{same_epr};
ghost use Rattle.ba_node_objects.specs.Changes.{Suits};
ghost use Rattle.ba_node_objects.specs.Finds.{FindsScope};
ghost use Rattle.ba_node_plans.specs.Proposals.{proposed_step};
ghost use Rattle.ba_node_plans.specs.inside.Registering.{refusal_code, register_dialed};
ghost use Rattle.ba_scope.specs.Rules.{enrol_refusal};
ghost use Rattle.ba_scope_ends.specs.Ends.{end_of};
ghost use Rattle.ba_node_steps.specs.Fits.{HasSpareCounters};
ghost use Rattle.ba_node_steps.specs.Steps.{enrol_unless, enrolled_before, on_register, register_at, same_protocol};

use crate::creating::next_id;
use crate::proposals::Proposal;
use crate::states::can_dial;
use ba_core::{Code, Id, Memory, Protocol};
use ba_message::Epr;
use ba_node_addresses::coordinator_of;
use ba_node_objects::{Change, FoundScope, Objects, ScopeChange};
use ba_node_steps::{Reply, Wake};
use ba_record::Record;
use ba_scope::{EnrolFault, Scope};
use ba_scope_ends::End;

/// A participant registers at this scope (WS-Coordination 1.2, section 3.2). No protocol where the message names one that
/// is not known.
pub fn register(
    node: &Objects,
    scope: Id,
    protocol: Option<Protocol>,
    participant: Epr,
) -> Result<Proposal, Memory>
    requires { HasSpareCounters node.now.node }
    ensures step { IfOk result (λ proposal. proposed_step node.now.node proposal ≡ on_register node.now.node scope protocol participant) }
    ensures suits { IfOk result (λ proposal. Suits node.now proposal.change) }
{
    let Some(found) = node.find_scope(scope) else {
        return Ok(Proposal::fault(Code::DestinationUnreachable));
    };
    match protocol {
        None => Ok(Proposal::fault(Code::InvalidProtocol)),
        Some(known) => register_known(node, scope, &found, known, participant),
    }
}

fn register_known(
    node: &Objects,
    id: Id,
    found: &FoundScope,
    protocol: Protocol,
    participant: Epr,
) -> Result<Proposal, Memory>
    requires spare { HasSpareCounters node.now.node }
    requires finds { FindsScope node.now.node id found.now.place found.now.scope.now }
    ensures step { IfOk result (λ proposal. proposed_step node.now.node proposal ≡ register_dialed node.now.node found.now.scope.now protocol participant) }
    ensures suits { IfOk result (λ proposal. Suits node.now proposal.change) }
{
    if !can_dial(participant.address.as_slice()) {
        return Ok(Proposal::fault(Code::InvalidParameters));
    }
    match end_of(found.scope, &participant) {
        Some(end) => again(node, end, protocol),
        None => enrol(node, id, found, protocol, participant),
    }
}

// The end of this participant, whose whole endpoint reference is equal.
fn end_of<'a>(scope: &'a Scope, participant: &Epr) -> Option<&'a End>
    ensures { option_map (λ e. e.now) result ≡ end_of scope.now.ends participant.now }
{
    scope.ends().iter().find(|end| is_of(end, participant))
}

// Whether it is the end of this participant.
fn is_of(end: &End, participant: &Epr) -> bool
    ensures { result ≡ same_epr end.now.participant participant.now }
{
    end.participant.equals(participant)
}

// It was enrolled before.
fn again(node: &Objects, end: &End, protocol: Protocol) -> Result<Proposal, Memory>
    ensures step { IfOk result (λ proposal. proposed_step node.now.node proposal ≡ enrolled_before node.now.node protocol end.now) }
    ensures change { IfOk result (λ proposal. proposal.change ≡ Change.Nothing) }
{
    if !is_same_protocol(end.protocol, protocol) {
        return Ok(Proposal::fault(Code::InvalidParameters));
    }
    let coordinator = coordinator_of(node.allocator(), node.base(), end.id)?;
    Ok(Proposal::only(Reply::Enrolment(coordinator)))
}

fn is_same_protocol(a: Protocol, b: Protocol) -> bool
    ensures { result ≡ same_protocol a b }
{
    match (a, b) {
        (Protocol::Pc, Protocol::Pc) | (Protocol::Cc, Protocol::Cc) => true,
        _ => false,
    }
}

fn enrol(
    node: &Objects,
    id: Id,
    found: &FoundScope,
    protocol: Protocol,
    participant: Epr,
) -> Result<Proposal, Memory>
    requires spare { HasSpareCounters node.now.node }
    requires finds { FindsScope node.now.node id found.now.place found.now.scope.now }
    requires new_participant { end_of found.now.scope.now.ends participant ≡ None }
    ensures step { IfOk result (λ proposal. proposed_step node.now.node proposal ≡ enrol_unless node.now.node found.now.scope.now protocol participant (enrol_refusal found.now.scope.now)) }
    ensures suits { IfOk result (λ proposal. Suits node.now proposal.change) }
{
    if let Some(why) = found.scope.enrol_refusal() {
        return Ok(Proposal::fault(code_of_refusal(why)));
    }
    let alloc = node.allocator();
    let room = found.scope.room()?;
    let end = next_id(node, 1);
    let kept = participant.copy(alloc)?;
    let coordinator = coordinator_of(alloc, node.base(), end)?;
    Ok(Proposal {
        reply: Reply::Enrolment(coordinator),
        wake: Wake::One(end),
        written: Some(Record::End(end.counter(), id.counter(), protocol, kept)),
        change: Change::Scope(
            found.place,
            ScopeChange::Enrol(room, end, protocol, participant),
        ),
    })
}

fn code_of_refusal(why: EnrolFault) -> Code
    ensures { result ≡ refusal_code why }
{
    match why {
        EnrolFault::NotYetEnrolled => Code::EndpointUnavailable,
        _ => Code::CannotRegisterParticipant,
    }
}
