//! Words of a world's event, one after another.
ghost use Rattle.std.specs.Prelude.{◌≡◌, ◌≢◌, ◌∷◌, [], ◌++◌, IfSome, IfNone, true, false};
ghost use Rattle.ba_world_events.specs.Events.{IsWritten, world_words};
ghost use Rattle.ba_script_forms.specs.Grammar.{left_after, some_ends, world_forms};
ghost use Rattle.ba_script_forms.specs.declared.world_words.WorldWords.{WorldWords};
ghost use Rattle.ba_script_forms.specs.inside.LineWords.{BeginsWorld, WorldFits, world_left, world_so_far};

use crate::words::{
    act_in, call_in, image_in, is_word, kind_in, leave_in, message_in, name_in, node_in,
    protocol_in, verdict_in,
};
use ba_core::{Id, Kind, Protocol};
use ba_world_events::Event;

/// What the first words of an event say.
#[derive(Clone, Copy, Debug, PartialEq, Eq)]
pub enum WorldWords {
    Create,
    CreateAt(u32),
    Created(u32, Kind),
    CreateUnder(u32, Kind),
    CreatedUnder(u32, Kind, Id),
    CreatedCc(u32, Kind, Id),
    CreateExpires(u32, Kind, Option<(Id, Protocol)>),
    Join,
    JoinAt(u32),
    JoinBy(u32, Protocol),
    Tick,
    Deliver,
    Act,
    ActOf(Id),
    Ask,
    Decide,
    DecideOf(Id),
    Choose,
    ChooseOf(Id),
    Complete,
    Finish,
    Leave,
    LeaveOf(Id),
    Wait,
    Crash,
    CrashAt,
    CrashAtNode(u32),
    CrashAtCall(u32, u32),
    Fail,
    FailNode(u32),
    Open,
    /// An event that wants no word more.
    Whole(Event),
}

impl WorldWords {
    /// What a line's first word says, if an event begins so.
    pub fn first(word: &[u8]) -> Option<WorldWords>
        ensures told { IfSome result (λ next. world_so_far next ≡ word.now ∷ []) }
        ensures fits { IfSome result WorldFits }
        ensures some { IfSome result (λ next. left_after world_forms word.now ≡ world_left next) }
        ensures none { IfNone result (left_after world_forms word.now ≡ []) }
    {
        verb_of(word)
    }

    /// What the words say with the next one, if it may come.
    pub fn next(self, word: &[u8]) -> Option<WorldWords>
        requires fits { WorldFits self }
        ensures told { IfSome result (λ next. world_so_far next ≡ world_so_far self ++ (word.now ∷ [])) }
        ensures fits { IfSome result WorldFits }
        ensures some { IfSome result (λ next. left_after (world_left self) word.now ≡ world_left next) }
        ensures none { IfNone result (left_after (world_left self) word.now ≡ []) }
    {
        match self {
            WorldWords::Create => Some(WorldWords::CreateAt(node_in(word)?)),
            WorldWords::CreateAt(node) => Some(WorldWords::Created(node, kind_in(word)?)),
            WorldWords::Created(node, kind) => after_kind(node, kind, word),
            WorldWords::CreateUnder(node, kind) => {
                Some(WorldWords::CreatedUnder(node, kind, name_in(word)?))
            }
            WorldWords::CreatedUnder(node, kind, id) => after_name(node, kind, id, word),
            WorldWords::CreatedCc(node, kind, id) => after_cc(node, kind, id, word),
            WorldWords::CreateExpires(node, kind, under) => {
                let expires = Some(node_in(word)?);
                Some(WorldWords::Whole(Event::Create {
                    node,
                    kind,
                    under,
                    expires,
                }))
            }
            WorldWords::Join => Some(WorldWords::JoinAt(node_in(word)?)),
            WorldWords::JoinAt(node) => Some(WorldWords::JoinBy(node, protocol_in(word)?)),
            WorldWords::JoinBy(node, protocol) => {
                let scope = name_in(word)?;
                Some(WorldWords::Whole(Event::Join {
                    node,
                    protocol,
                    scope,
                }))
            }
            WorldWords::Tick => Some(WorldWords::Whole(Event::Tick(name_in(word)?))),
            WorldWords::Deliver => Some(WorldWords::Whole(Event::Deliver(message_in(word)?))),
            WorldWords::Act => Some(WorldWords::ActOf(name_in(word)?)),
            WorldWords::ActOf(id) => Some(WorldWords::Whole(Event::Act(id, act_in(word)?))),
            WorldWords::Ask => Some(WorldWords::Whole(Event::Ask(name_in(word)?))),
            WorldWords::Decide => Some(WorldWords::DecideOf(name_in(word)?)),
            WorldWords::DecideOf(id) => {
                Some(WorldWords::Whole(Event::Decide(id, verdict_in(word)?)))
            }
            WorldWords::Choose => Some(WorldWords::ChooseOf(name_in(word)?)),
            WorldWords::ChooseOf(id) => {
                Some(WorldWords::Whole(Event::Choose(id, verdict_in(word)?)))
            }
            WorldWords::Complete => Some(WorldWords::Whole(Event::Complete(name_in(word)?))),
            WorldWords::Finish => Some(WorldWords::Whole(Event::Finish(name_in(word)?))),
            WorldWords::Leave => Some(WorldWords::LeaveOf(name_in(word)?)),
            WorldWords::LeaveOf(id) => Some(WorldWords::Whole(Event::Leave(id, leave_in(word)?))),
            WorldWords::Wait => Some(WorldWords::Whole(Event::Wait(node_in(word)?))),
            WorldWords::Crash => Some(WorldWords::Whole(Event::Crash(node_in(word)?))),
            WorldWords::CrashAt => Some(WorldWords::CrashAtNode(node_in(word)?)),
            WorldWords::CrashAtNode(node) => Some(WorldWords::CrashAtCall(node, call_in(word)?)),
            WorldWords::CrashAtCall(node, call) => {
                let image = image_in(word)?;
                Some(WorldWords::Whole(Event::CrashAt { node, call, image }))
            }
            WorldWords::Fail => Some(WorldWords::FailNode(node_in(word)?)),
            WorldWords::FailNode(node) => {
                let call = call_in(word)?;
                Some(WorldWords::Whole(Event::Fail { node, call }))
            }
            WorldWords::Open => Some(WorldWords::Whole(Event::Open(node_in(word)?))),
            WorldWords::Whole(_) => None,
        }
    }

    /// The event that the words tell, if no word is missing.
    pub fn event(self) -> Option<Event>
        requires fits { WorldFits self }
        ensures told { IfSome result (λ event. world_words event ≡ world_so_far self) }
        ensures fits { IfSome result IsWritten }
        ensures none { IfNone result (some_ends (world_left self) ≡ false) }
    {
        match self {
            WorldWords::Created(node, kind) => Some(Event::Create {
                node,
                kind,
                under: None,
                expires: None,
            }),
            WorldWords::CreatedUnder(node, kind, id) => Some(Event::Create {
                node,
                kind,
                under: Some((id, Protocol::Pc)),
                expires: None,
            }),
            WorldWords::CreatedCc(node, kind, id) => Some(Event::Create {
                node,
                kind,
                under: Some((id, Protocol::Cc)),
                expires: None,
            }),
            WorldWords::Whole(event) => Some(event),
            _ => None,
        }
    }
}

// What the first word of an event says.
fn verb_of(word: &[u8]) -> Option<WorldWords>
    ensures told { IfSome result (λ next. world_so_far next ≡ word.now ∷ []) }
    ensures begins { IfSome result BeginsWorld }
    ensures none { IfNone result ((next : WorldWords) → BeginsWorld next → world_so_far next ≢ word.now ∷ []) }
{
    if word == b"create".as_slice() {
        return Some(WorldWords::Create);
    }
    if word == b"join".as_slice() {
        return Some(WorldWords::Join);
    }
    if word == b"tick".as_slice() {
        return Some(WorldWords::Tick);
    }
    if word == b"deliver".as_slice() {
        return Some(WorldWords::Deliver);
    }
    if word == b"act".as_slice() {
        return Some(WorldWords::Act);
    }
    if word == b"ask".as_slice() {
        return Some(WorldWords::Ask);
    }
    if word == b"decide".as_slice() {
        return Some(WorldWords::Decide);
    }
    if word == b"choose".as_slice() {
        return Some(WorldWords::Choose);
    }
    if word == b"complete".as_slice() {
        return Some(WorldWords::Complete);
    }
    if word == b"finish".as_slice() {
        return Some(WorldWords::Finish);
    }
    if word == b"leave".as_slice() {
        return Some(WorldWords::Leave);
    }
    if word == b"wait".as_slice() {
        return Some(WorldWords::Wait);
    }
    if word == b"crash".as_slice() {
        return Some(WorldWords::Crash);
    }
    if word == b"crashat".as_slice() {
        return Some(WorldWords::CrashAt);
    }
    if word == b"fail".as_slice() {
        return Some(WorldWords::Fail);
    }
    if word == b"open".as_slice() {
        return Some(WorldWords::Open);
    }
    None
}

// What may come after the kind of a new scope.
#[tactic(auto, using(crate::proofs::Later::under_is_no_expires))]
fn after_kind(node: u32, kind: Kind, word: &[u8]) -> Option<WorldWords>
    requires fits { WorldFits (WorldWords.Created node kind) }
    ensures told { IfSome result (λ next. world_so_far next ≡ world_so_far (WorldWords.Created node kind) ++ (word.now ∷ [])) }
    ensures fits { IfSome result WorldFits }
    ensures some { IfSome result (λ next. left_after (world_left (WorldWords.Created node kind)) word.now ≡ world_left next) }
    ensures none { IfNone result (left_after (world_left (WorldWords.Created node kind)) word.now ≡ []) }
{
    if is_word(word, b"expires") {
        return Some(WorldWords::CreateExpires(node, kind, None));
    }
    if is_word(word, b"under") {
        return Some(WorldWords::CreateUnder(node, kind));
    }
    None
}

// What may come after the name of the scope above a new one.
#[tactic(auto, using(crate::proofs::Later::expires_is_no_cc))]
fn after_name(node: u32, kind: Kind, id: Id, word: &[u8]) -> Option<WorldWords>
    requires fits { WorldFits (WorldWords.CreatedUnder node kind id) }
    ensures told { IfSome result (λ next. world_so_far next ≡ world_so_far (WorldWords.CreatedUnder node kind id) ++ (word.now ∷ [])) }
    ensures fits { IfSome result WorldFits }
    ensures some { IfSome result (λ next. left_after (world_left (WorldWords.CreatedUnder node kind id)) word.now ≡ world_left next) }
    ensures none { IfNone result (left_after (world_left (WorldWords.CreatedUnder node kind id)) word.now ≡ []) }
{
    if is_word(word, b"expires") {
        return Some(WorldWords::CreateExpires(node, kind, Some((id, Protocol::Pc))));
    }
    if is_word(word, b"cc") {
        return Some(WorldWords::CreatedCc(node, kind, id));
    }
    None
}

// What may come after the protocol to use with the scope above.
fn after_cc(node: u32, kind: Kind, id: Id, word: &[u8]) -> Option<WorldWords>
    requires fits { WorldFits (WorldWords.CreatedCc node kind id) }
    ensures told { IfSome result (λ next. world_so_far next ≡ world_so_far (WorldWords.CreatedCc node kind id) ++ (word.now ∷ [])) }
    ensures fits { IfSome result WorldFits }
    ensures some { IfSome result (λ next. left_after (world_left (WorldWords.CreatedCc node kind id)) word.now ≡ world_left next) }
    ensures none { IfNone result (left_after (world_left (WorldWords.CreatedCc node kind id)) word.now ≡ []) }
{
    if is_word(word, b"expires") {
        return Some(WorldWords::CreateExpires(node, kind, Some((id, Protocol::Cc))));
    }
    None
}
