//! Single words of a line, read as what a form wants there.
ghost use Rattle.std.specs.Prelude.{◌≡◌, ◌≢◌, ◌≤◌, IfSome, IfNone, true, false};
ghost use Rattle.std.specs.Fmt.{decimal};
ghost use Rattle.ba_core.specs.Texts.{id_text};
ghost use Rattle.ba_core.specs.declared.protocols.Side.{Side};
ghost use Rattle.ba_core.specs.Words.{act_word, kind_word, protocol_word, verdict_word};
ghost use Rattle.ba_world_events.specs.Events.{IsObject, image_word, leave_word};
ghost use Rattle.ba_script_forms.specs.Grammar.{fits, the, name, number, a_call, a_kind, a_leave, a_message, a_node, a_protocol, a_side, a_verdict, an_act, an_image, most_32, most_64};
ghost use Rattle.ba_script_forms.specs.Readings.{side_word};

use ba_core::{Act, Id, Kind, Leave, Protocol, Side, Verdict, number_of};
use ba_ports::Image;
use ba_world_events::{image_of_word, leave_of_word};

/// Whether the word is this one.
#[tactic(auto, using(crate::proofs::Fits::fits_the, crate::proofs::Fits::same_word))]
pub fn is_word(word: &[u8], wanted: &[u8]) -> bool
    ensures same { result ≡ true → word.now ≡ wanted.now }
    ensures fits { result ≡ fits (the wanted.now) word.now }
{
    word == wanted
}

/// The number of the word, if it is one and lies between these bounds.
pub fn number_in(word: &[u8], least: u64, most: u64) -> Option<u64>
    ensures word { IfSome result (λ n. word.now ≡ decimal n) }
    ensures least { IfSome result (λ n. least ≤ n) }
    ensures most { IfSome result (λ n. n ≤ most) }
    ensures some { IfSome result (λ n. fits (number least most) word.now ≡ true) }
    ensures none { IfNone result (fits (number least most) word.now ≡ false) }
{
    let Some(n) = number_of(word) else {
        return None;
    };
    if n < least {
        return None;
    }
    if n > most {
        return None;
    }
    Some(n)
}

/// A number of 32 bits, as those of nodes and milliseconds.
pub fn node_in(word: &[u8]) -> Option<u32>
    ensures word { IfSome result (λ n. word.now ≡ decimal n) }
    ensures most { IfSome result (λ n. n ≤ most_32) }
    ensures some { IfSome result (λ n. fits a_node word.now ≡ true) }
    ensures none { IfNone result (fits a_node word.now ≡ false) }
{
    match number_in(word, 0, 4_294_967_295) {
        Some(n) => Some(n as u32),
        None => None,
    }
}

/// The number of a device call.
pub fn call_in(word: &[u8]) -> Option<u32>
    ensures word { IfSome result (λ n. word.now ≡ decimal n) }
    ensures least { IfSome result (λ n. 1 ≤ n) }
    ensures most { IfSome result (λ n. n ≤ most_32) }
    ensures some { IfSome result (λ n. fits a_call word.now ≡ true) }
    ensures none { IfNone result (fits a_call word.now ≡ false) }
{
    match number_in(word, 1, 4_294_967_295) {
        Some(n) => Some(n as u32),
        None => None,
    }
}

/// The number of a message.
pub fn message_in(word: &[u8]) -> Option<u64>
    ensures word { IfSome result (λ n. word.now ≡ decimal n) }
    ensures most { IfSome result (λ n. n ≤ most_64) }
    ensures some { IfSome result (λ n. fits a_message word.now ≡ true) }
    ensures none { IfNone result (fits a_message word.now ≡ false) }
{
    number_in(word, 0, 18_446_744_073_709_551_615)
}

/// How many nodes a world has.
pub fn nodes_in(word: &[u8]) -> Option<u32>
    ensures word { IfSome result (λ n. word.now ≡ decimal n) }
    ensures least { IfSome result (λ n. 1 ≤ n) }
    ensures most { IfSome result (λ n. n ≤ 64) }
    ensures some { IfSome result (λ n. fits (number 1 64) word.now ≡ true) }
    ensures none { IfNone result (fits (number 1 64) word.now ≡ false) }
{
    match number_in(word, 1, 64) {
        Some(n) => Some(n as u32),
        None => None,
    }
}

/// An object, by its name.
pub fn name_in(word: &[u8]) -> Option<Id>
    ensures word { IfSome result (λ id. word.now ≡ id_text id.0) }
    ensures object { IfSome result IsObject }
    ensures some { IfSome result (λ id. fits name word.now ≡ true) }
    ensures none { IfNone result (fits name word.now ≡ false) }
{
    Id::of_text(word)
}

/// An act of a participant's work, by its word.
pub fn act_in(word: &[u8]) -> Option<Act>
    ensures word { IfSome result (λ act. word.now ≡ act_word act) }
    ensures some { IfSome result (λ act. fits an_act word.now ≡ true) }
    ensures none { IfNone result (fits an_act word.now ≡ false) }
{
    Act::of_word(word)
}

/// A verdict, by its word.
pub fn verdict_in(word: &[u8]) -> Option<Verdict>
    ensures word { IfSome result (λ verdict. word.now ≡ verdict_word verdict) }
    ensures some { IfSome result (λ verdict. fits a_verdict word.now ≡ true) }
    ensures none { IfNone result (fits a_verdict word.now ≡ false) }
{
    Verdict::of_word(word)
}

/// A protocol, by its word.
pub fn protocol_in(word: &[u8]) -> Option<Protocol>
    ensures word { IfSome result (λ protocol. word.now ≡ protocol_word protocol) }
    ensures some { IfSome result (λ protocol. fits a_protocol word.now ≡ true) }
    ensures none { IfNone result (fits a_protocol word.now ≡ false) }
{
    Protocol::of_word(word)
}

/// The kind of a scope, by its word.
pub fn kind_in(word: &[u8]) -> Option<Kind>
    ensures word { IfSome result (λ kind. word.now ≡ kind_word kind) }
    ensures some { IfSome result (λ kind. fits a_kind word.now ≡ true) }
    ensures none { IfNone result (fits a_kind word.now ≡ false) }
{
    Kind::of_word(word)
}

/// A way to leave, by its word.
pub fn leave_in(word: &[u8]) -> Option<Leave>
    ensures word { IfSome result (λ leave. word.now ≡ leave_word leave) }
    ensures some { IfSome result (λ leave. fits a_leave word.now ≡ true) }
    ensures none { IfNone result (fits a_leave word.now ≡ false) }
{
    leave_of_word(word)
}

/// What a stop leaves, by its word.
pub fn image_in(word: &[u8]) -> Option<Image>
    ensures word { IfSome result (λ image. word.now ≡ image_word image) }
    ensures some { IfSome result (λ image. fits an_image word.now ≡ true) }
    ensures none { IfNone result (fits an_image word.now ≡ false) }
{
    image_of_word(word)
}

/// A side, by its letter.
pub fn side_in(word: &[u8]) -> Option<Side>
    ensures word { IfSome result (λ side. word.now ≡ side_word side) }
    ensures some { IfSome result (λ side. fits a_side word.now ≡ true) }
    ensures none { IfNone result (fits a_side word.now ≡ false) }
{
    side_of(word)
}

// The side with this letter.
fn side_of(word: &[u8]) -> Option<Side>
    ensures some { IfSome result (λ side. word.now ≡ side_word side) }
    ensures none { IfNone result ((side : Side) → word.now ≢ side_word side) }
{
    if word == b"c".as_slice() {
        return Some(Side::Coordinator);
    }
    if word == b"p".as_slice() {
        return Some(Side::Participant);
    }
    None
}
