//! What happened to a node when it kept a record.
ghost use Rattle.std.specs.Prelude.{◌≡◌};
ghost use Rattle.std.specs.Option.{option_map};
ghost use Rattle.ba_node.specs.inside.Enacting.{told_event};
ghost use Rattle.ba_node_steps.specs.Lawful.{act_event, chosen_event, create_event, current_context, event_of, notice_event, refused_event};
ghost use Rattle.ba_node_steps.specs.Node.{id_at, part_place, upward};
ghost use Rattle.ba_scope.specs.Scope.{ScopeState};
ghost use Rattle.ba_scope_ends.specs.declared.parts.Part.{Part};

use ba_core::{Act, Code, Id, Kind, Leave, List, Notice, Protocol, Side, Verdict};
use ba_message::{Context, Epr};
use ba_node_objects::Objects;
use ba_node_steps::Input;
use ba_record::Record;
use std::alloc::Global;

// At the last moment of all each deadline is past.
const LAST_MOMENT: u64 = 18_446_744_073_709_551_615;

/// What happens to a node, at a moment in milliseconds.
#[derive(Debug, Drop)]
pub enum Event {
    Given(u64, Input),
    Ticked(u64, Id),
}

/// An event that keeps this record, if any does.
pub(crate) fn event_of(node: &Objects, kept: Record) -> Option<Event>
    ensures { option_map told_event result ≡ event_of node.now.node kept }
{
    match kept {
        Record::Node(_, _) => None,
        Record::Scope(_, kind, deadline, up) => {
            Some(create_event(node.allocator(), kind, deadline, up))
        }
        Record::End(_, scope, protocol, participant) => {
            let scope = id_at(node, scope);
            let protocol = Some(protocol);
            Some(Event::Given(
                0,
                Input::Register {
                    scope,
                    protocol,
                    participant,
                },
            ))
        }
        Record::Part(_, protocol, registration) => {
            Some(Event::Given(
                0,
                Input::Join {
                    protocol,
                    registration,
                },
            ))
        }
        Record::Enrolled(counter, coordinator) => {
            Some(Event::Given(0, Input::Enrolled(id_at(node, counter), coordinator)))
        }
        Record::Refused(counter, number) => refused_event(id_at(node, counter), number),
        Record::Received(counter, notice) => Some(notice_event(node, id_at(node, counter), notice)),
        Record::Acted(counter, act) => Some(act_event(node, id_at(node, counter), act)),
        Record::Decided(counter, verdict) => {
            Some(Event::Given(0, Input::Decide(id_at(node, counter), verdict)))
        }
        Record::Chosen(counter, number) => chosen_event(id_at(node, counter), number),
        Record::Ticked(counter) => Some(Event::Ticked(LAST_MOMENT, id_at(node, counter))),
        Record::Asked(counter) => Some(Event::Given(0, Input::Ask(id_at(node, counter)))),
    }
}

fn id_at(node: &Objects, counter: u64) -> Id
    ensures { result ≡ id_at node.now.node counter }
{
    Id::of(node.number(), counter)
}

// A scope is made at its deadline, where it has one, and expires at once.
fn create_event(
    alloc: Global,
    kind: Kind,
    deadline: Option<u64>,
    up: Option<(Protocol, Epr)>,
) -> Event
    ensures { told_event result ≡ create_event kind deadline up }
{
    let now = deadline.unwrap_or(0);
    let expires = if deadline.is_some() { Some(0) } else { None };
    match up {
        None => Event::Given(
            now,
            Input::Create {
                expires,
                current: None,
                kind: Some(kind),
                up: Protocol::Pc,
            },
        ),
        Some((protocol, registration)) => Event::Given(
            now,
            Input::Create {
                expires,
                current: Some(current_context(alloc, kind, registration)),
                kind: Some(kind),
                up: protocol,
            },
        ),
    }
}

fn current_context(alloc: Global, kind: Kind, registration: Epr) -> Context
    ensures { result ≡ current_context kind registration }
{
    Context {
        identifier: List::new(alloc),
        expires: None,
        kind: Some(kind),
        registration,
    }
}

fn refused_event(id: Id, number: u8) -> Option<Event>
    ensures { option_map told_event result ≡ refused_event id number }
{
    match number {
        1 => Some(Event::Given(0, Input::RefusedBy(id, Code::CannotRegisterParticipant))),
        2 => Some(Event::Given(0, Input::RefusedBy(id, Code::InvalidProtocol))),
        _ => None,
    }
}

// A notice to the end with this identifier, and where there is none to the participant.
fn notice_event(node: &Objects, id: Id, notice: Notice) -> Event
    ensures { told_event result ≡ notice_event node.now.node id notice }
{
    let side = if node.find_end(id).is_some() {
        Side::Coordinator
    } else {
        Side::Participant
    };
    Event::Given(0, Input::Notice(side, id, notice))
}

// An act of a lone participant; of an upward part its scope's finish or leave.
fn act_event(node: &Objects, id: Id, act: Act) -> Event
    ensures { told_event result ≡ act_event (part_place node.now.node id) id act }
{
    if node.find_lone(id).is_some() {
        return Event::Given(0, Input::Act(id, act));
    }
    match node.find_up(id) {
        None => Event::Given(0, Input::Act(id, act)),
        Some(found) => act_above(found.scope.id(), id, act),
    }
}

fn act_above(scope: Id, id: Id, act: Act) -> Event
    ensures { (s : ScopeState) (p : Part) → s.id ≡ scope → told_event result ≡ act_event (upward s p) id act }
{
    match act {
        Act::Completed => Event::Given(0, Input::Finish(scope)),
        Act::Exit => Event::Given(0, Input::Leave(scope, Leave::Exit)),
        Act::CannotComplete => Event::Given(0, Input::Leave(scope, Leave::CannotComplete)),
        Act::Fail => Event::Given(0, Input::Leave(scope, Leave::Fail)),
        _ => Event::Given(0, Input::Act(id, act)),
    }
}

fn chosen_event(id: Id, number: u8) -> Option<Event>
    ensures { option_map told_event result ≡ chosen_event id number }
{
    match number {
        1 => Some(Event::Given(0, Input::Choose(id, Verdict::Close))),
        2 => Some(Event::Given(0, Input::Choose(id, Verdict::Undo))),
        3 => Some(Event::Given(0, Input::Complete(id))),
        _ => None,
    }
}
