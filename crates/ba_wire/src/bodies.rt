//! The shapes of bodies, as tables.
ghost use Rattle.std.specs.Prelude.{◌≡◌, ℕ, IfOk, map, find};
ghost use Rattle.ba_soap_shapes.specs.Shapes.{line_of};
ghost use Rattle.ba_wire.specs.Bodies.{body_look, message_of, lines_of_body};
ghost use Rattle.ba_wire.specs.Actions.{action_of, bodies, element_uri, has_action, body_name, body_of, body_space};
ghost use Rattle.ba_wire.specs.Elements.{body_of_notice};
ghost use Rattle.ba_wire.specs.Meaning.{asks_for_reply};
ghost use Rattle.ba_wire.specs.declared.bodies.Body.TheVariants as body;

use crate::forms::{Part, Whole};
use crate::values::{create, created, fault, register, registered, status};
use ba_core::{Memory, Notice, name_of};
use ba_message::Message;
use ba_soap_shapes::{Misfit, Need, Plain, Row, Space, rows_misfit};
use ba_tree::{SOAP_SPACE, Tree, WSBA_SPACE, WSCOOR_SPACE};
use std::alloc::Global;

/// Which body a message has.
#[derive(Clone, Copy, Debug)]
pub enum Body {
    Create,
    Created,
    Register,
    Registered,
    Status,
    /// A notice other than Status.
    Notice(Notice),
    Fault,
}

const TEXT: Part = Part::Plain(Plain::Text);

pub const IDENTIFIER: Row<Part> = Row {
    space: Space::Parent,
    local: b"Identifier",
    need: Need::Required,
    form: TEXT,
};

pub const EXPIRES: Row<Part> = Row {
    space: Space::Parent,
    local: b"Expires",
    need: Need::Optional,
    form: Part::Plain(Plain::Number),
};

pub const COORDINATION_TYPE: Row<Part> = Row {
    space: Space::Parent,
    local: b"CoordinationType",
    need: Need::Required,
    form: TEXT,
};

pub const REGISTRATION_SERVICE: Row<Part> = Row {
    space: Space::Parent,
    local: b"RegistrationService",
    need: Need::Required,
    form: Part::Endpoint,
};

pub const CONTEXT: [Row<Part>; 4] = [IDENTIFIER, EXPIRES, COORDINATION_TYPE, REGISTRATION_SERVICE];

pub const CREATE_EXPIRES: Row<Whole> = Row {
    space: Space::Parent,
    local: b"Expires",
    need: Need::Optional,
    form: Whole::Part(Part::Plain(Plain::Number)),
};

pub const CREATE_TYPE: Row<Whole> = Row {
    space: Space::Parent,
    local: b"CoordinationType",
    need: Need::Required,
    form: Whole::Part(TEXT),
};

pub const CURRENT_CONTEXT: Row<Whole> = Row {
    space: Space::Parent,
    local: b"CurrentContext",
    need: Need::Optional,
    form: Whole::Context,
};

pub const UPWARD: Row<Whole> = Row {
    space: Space::Own,
    local: b"Upward",
    need: Need::Optional,
    form: Whole::Part(Part::Upward),
};

pub const COORDINATION_CONTEXT: Row<Whole> = Row {
    space: Space::Parent,
    local: b"CoordinationContext",
    need: Need::Required,
    form: Whole::Context,
};

pub const PROTOCOL_IDENTIFIER: Row<Whole> = Row {
    space: Space::Parent,
    local: b"ProtocolIdentifier",
    need: Need::Required,
    form: Whole::Part(TEXT),
};

pub const PARTICIPANT_SERVICE: Row<Whole> = Row {
    space: Space::Parent,
    local: b"ParticipantProtocolService",
    need: Need::Required,
    form: Whole::Part(Part::Endpoint),
};

pub const COORDINATOR_SERVICE: Row<Whole> = Row {
    space: Space::Parent,
    local: b"CoordinatorProtocolService",
    need: Need::Required,
    form: Whole::Part(Part::Endpoint),
};

pub const STATE: Row<Whole> = Row {
    space: Space::Parent,
    local: b"State",
    need: Need::Required,
    form: Whole::Part(Part::Plain(Plain::Qname)),
};

pub const FAULT_CODE: Row<Whole> = Row {
    space: Space::Bare,
    local: b"faultcode",
    need: Need::Required,
    form: Whole::Part(Part::Plain(Plain::Qname)),
};

const SKIPPED: Whole = Whole::Part(Part::Plain(Plain::Skipped));

const CREATE: [Row<Whole>; 4] = [CREATE_EXPIRES, CURRENT_CONTEXT, CREATE_TYPE, UPWARD];

const CREATED: [Row<Whole>; 1] = [COORDINATION_CONTEXT];

const REGISTER: [Row<Whole>; 2] = [PROTOCOL_IDENTIFIER, PARTICIPANT_SERVICE];

const REGISTERED: [Row<Whole>; 1] = [COORDINATOR_SERVICE];

const STATUS: [Row<Whole>; 1] = [STATE];

const FAULT: [Row<Whole>; 4] = [
    FAULT_CODE,
    Row {
        space: Space::Bare,
        local: b"faultstring",
        need: Need::Optional,
        form: SKIPPED,
    },
    Row {
        space: Space::Bare,
        local: b"faultactor",
        need: Need::Optional,
        form: SKIPPED,
    },
    Row {
        space: Space::Bare,
        local: b"detail",
        need: Need::Optional,
        form: SKIPPED,
    },
];

impl Body {
    /// What is out of shape in such a body, and comes first.
    pub fn misfit(self, alloc: Global, tree: &Tree) -> Result<Option<Misfit>, Memory>
        ensures { IfOk result (λ found. found ≡ body_look self 0 tree.now) }
    {
        match self {
            Body::Create => rows_misfit(alloc, CREATE.as_slice(), tree, 0),
            Body::Created => rows_misfit(alloc, CREATED.as_slice(), tree, 0),
            Body::Register => rows_misfit(alloc, REGISTER.as_slice(), tree, 0),
            Body::Registered => rows_misfit(alloc, REGISTERED.as_slice(), tree, 0),
            Body::Status => rows_misfit(alloc, STATUS.as_slice(), tree, 0),
            Body::Notice(_) => Ok(None),
            Body::Fault => rows_misfit(alloc, FAULT.as_slice(), tree, 0),
        }
    }
}

impl Body {
    /// The namespace of its element.
    pub fn space(self) -> &'static [u8]
        ensures { result.now ≡ body_space self }
    {
        match self {
            Body::Notice(_) | Body::Status => WSBA_SPACE,
            Body::Fault => SOAP_SPACE,
            Body::Create | Body::Created | Body::Register | Body::Registered => { WSCOOR_SPACE }
        }
    }

    /// The local name of its element.
    pub fn name(self) -> &'static [u8]
        ensures { result.now ≡ body_name self }
    {
        match self {
            Body::Create => b"CreateCoordinationContext",
            Body::Created => b"CreateCoordinationContextResponse",
            Body::Register => b"Register",
            Body::Registered => b"RegisterResponse",
            Body::Status => b"Status",
            Body::Notice(notice) => name_of(notice),
            Body::Fault => b"Fault",
        }
    }

    /// Whether it asks for a reply.
    pub fn asks(self) -> bool
        ensures { result ≡ asks_for_reply self }
    {
        matches!(self, Body::Create | Body::Register)
    }

    /// Whether this is its action: the namespace of its element, a slash and its name. A Fault has none.
    fn has_action(self, uri: &[u8]) -> bool
        ensures { result ≡ has_action uri.now (action_of self) }
    {
        match self {
            Body::Create => uri == CREATE_ACTION,
            Body::Created => uri == CREATED_ACTION,
            Body::Register => uri == REGISTER_ACTION,
            Body::Registered => uri == REGISTERED_ACTION,
            Body::Status => uri == STATUS_ACTION,
            Body::Notice(notice) => uri == notice_action(notice),
            Body::Fault => false,
        }
    }

    /// The body that an action names.
    pub fn of(uri: &[u8]) -> Option<Body>
        ensures { result ≡ body_of uri.now }
    {
        BODIES.iter().copied().find(|body| body.has_action(uri))
    }
}

pub const CREATE_ACTION: &[u8] =
    b"http://docs.oasis-open.org/ws-tx/wscoor/2006/06/CreateCoordinationContext";

pub const CREATED_ACTION: &[u8] =
    b"http://docs.oasis-open.org/ws-tx/wscoor/2006/06/CreateCoordinationContextResponse";

pub const REGISTER_ACTION: &[u8] = b"http://docs.oasis-open.org/ws-tx/wscoor/2006/06/Register";

pub const REGISTERED_ACTION: &[u8] =
    b"http://docs.oasis-open.org/ws-tx/wscoor/2006/06/RegisterResponse";

const STATUS_ACTION: &[u8] = b"http://docs.oasis-open.org/ws-tx/wsba/2006/06/Status";

const BODIES: [Body; 20] = [
    Body::Notice(Notice::Complete),
    Body::Notice(Notice::Close),
    Body::Notice(Notice::Cancel),
    Body::Notice(Notice::Compensate),
    Body::Notice(Notice::Failed),
    Body::Notice(Notice::Exited),
    Body::Notice(Notice::NotCompleted),
    Body::Notice(Notice::Completed),
    Body::Notice(Notice::Closed),
    Body::Notice(Notice::Canceled),
    Body::Notice(Notice::Compensated),
    Body::Notice(Notice::Fail),
    Body::Notice(Notice::Exit),
    Body::Notice(Notice::CannotComplete),
    Body::Notice(Notice::GetStatus),
    Body::Status,
    Body::Create,
    Body::Created,
    Body::Register,
    Body::Registered,
];

/// The action of a notice.
pub fn notice_action(notice: Notice) -> &'static [u8]
    ensures element { result.now ≡ element_uri (body.Notice notice) }
    ensures message { result.now ≡ element_uri (body_of_notice notice) }
{
    match notice {
        Notice::Complete => b"http://docs.oasis-open.org/ws-tx/wsba/2006/06/Complete",
        Notice::Close => b"http://docs.oasis-open.org/ws-tx/wsba/2006/06/Close",
        Notice::Cancel => b"http://docs.oasis-open.org/ws-tx/wsba/2006/06/Cancel",
        Notice::Compensate => b"http://docs.oasis-open.org/ws-tx/wsba/2006/06/Compensate",
        Notice::Failed => b"http://docs.oasis-open.org/ws-tx/wsba/2006/06/Failed",
        Notice::Exited => b"http://docs.oasis-open.org/ws-tx/wsba/2006/06/Exited",
        Notice::NotCompleted => b"http://docs.oasis-open.org/ws-tx/wsba/2006/06/NotCompleted",
        Notice::Completed => b"http://docs.oasis-open.org/ws-tx/wsba/2006/06/Completed",
        Notice::Closed => b"http://docs.oasis-open.org/ws-tx/wsba/2006/06/Closed",
        Notice::Canceled => b"http://docs.oasis-open.org/ws-tx/wsba/2006/06/Canceled",
        Notice::Compensated => b"http://docs.oasis-open.org/ws-tx/wsba/2006/06/Compensated",
        Notice::Fail => b"http://docs.oasis-open.org/ws-tx/wsba/2006/06/Fail",
        Notice::Exit => b"http://docs.oasis-open.org/ws-tx/wsba/2006/06/Exit",
        Notice::CannotComplete => b"http://docs.oasis-open.org/ws-tx/wsba/2006/06/CannotComplete",
        Notice::GetStatus => b"http://docs.oasis-open.org/ws-tx/wsba/2006/06/GetStatus",
        Notice::Status(_) => STATUS_ACTION,
    }
}

impl Body {
    /// What its element says.
    pub fn message(self, alloc: Global, tree: &Tree) -> Result<Message, Memory>
        ensures { IfOk result (λ message. message ≡ message_of self tree.now) }
    {
        match self {
            Body::Create => create(alloc, tree),
            Body::Created => created(alloc, tree),
            Body::Register => register(alloc, tree),
            Body::Registered => registered(alloc, tree),
            Body::Status => status(alloc, tree),
            Body::Notice(notice) => Ok(Message::Notice(notice)),
            Body::Fault => fault(alloc, tree),
        }
    }
}
