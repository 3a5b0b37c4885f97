//! Writes a record.
#![tactic(auto, using(crate::proofs::Filling::filled_on))]

ghost use Rattle.std.specs.Prelude.{◌≡◌, ◌++◌, ◌∷◌, [], length, map, OnOk, OnErr};
ghost use Rattle.std.specs.Int.{w8, w16, w32, w64, to_le_bytes};
ghost use Rattle.ba_tree.specs.Trees.{joined};
ghost use Rattle.ba_record.specs.Coding.{coding, InRange, string_coding, name_coding, attribute_coding, content_coding, tree_coding, endpoint_coding, counter_coding};
ghost use Rattle.ba_record.specs.Coding.{kind_code, protocol_code, verdict_code, act_code, option_coding, upward_coding};
ghost use Rattle.ba_record.specs.Rooms.{filled};

use crate::records::Record;
use crate::rooms::Room;
use crate::sizes::size_of;
use ba_core::{Act, Kind, List, Memory, Octets, Protocol, Verdict, code_of};
use ba_message::Epr;
use ba_tree::{Attribute, Content, Name, Namespace, Tree};
use std::alloc::Global;

/// Puts the record's coding last. After `Memory` nothing has changed.
pub fn put(alloc: Global, r: &Record, out: &mut Octets) -> Result<(), Memory>
    requires { InRange r.now }
    ensures ok { OnOk result (out.new ≡ out.old ++ coding r.now) }
    ensures err { OnErr result (out.new ≡ out.old) }
{
    let mut room = Room::new(alloc);
    room.reserve(size_of(r))?;
    put_in(r, &mut room);
    out.append(room.as_slice())
}

/// Puts the record's coding into a room, which takes no memory. Bytes for which no room is left aren't kept.
pub fn put_in(r: &Record, room: &mut Room)
    requires { InRange r.now }
    ensures { room.new ≡ filled room.old (coding r.now) }
{
    put_record(room, r);
}

fn put_record(out: &mut Room, r: &Record)
    ensures { out.new ≡ filled out.old (coding r.now) }
{
    match r {
        Record::Node(number, base) => put_node(out, *number, base),
        Record::Scope(counter, kind, deadline, upward) => put_scope(
            out, *counter, *kind, *deadline, upward,
        ),
        Record::End(counter, scope, protocol, participant) => put_end(
            out,
            *counter,
            *scope,
            *protocol,
            participant,
        ),
        Record::Part(counter, protocol, registration) => put_part(
            out,
            *counter,
            *protocol,
            registration,
        ),
        Record::Enrolled(counter, coordinator) => put_enrolled(out, *counter, coordinator),
        Record::Refused(counter, code) => put_small(out, 6, *counter, *code),
        Record::Received(counter, notice) => put_small(out, 7, *counter, code_of(*notice)),
        Record::Acted(counter, act) => put_small(out, 8, *counter, code_of_act(*act)),
        Record::Decided(counter, verdict) => put_small(out, 9, *counter, code_of_verdict(*verdict)),
        Record::Chosen(counter, choice) => put_small(out, 10, *counter, *choice),
        Record::Ticked(counter) => put_counter(out, 11, *counter),
        Record::Asked(counter) => put_counter(out, 12, *counter),
    }
}

fn put_node(out: &mut Room, number: u32, base: &Octets)
    ensures { out.new ≡ filled out.old (1 ∷ (to_le_bytes w32 number ++ string_coding base.now)) }
{
    put_byte(out, 1);
    out.put_bytes(number.to_le_bytes().as_slice());
    put_string(out, base);
}

fn put_scope(
    out: &mut Room,
    counter: u64,
    kind: Kind,
    deadline: Option<u64>,
    upward: &Option<(Protocol, Epr)>,
)
    ensures { out.new ≡ filled out.old (2 ∷ (counter_coding counter ++ (kind_code kind ∷ (option_coding (to_le_bytes w64) deadline ++ option_coding upward_coding upward.now)))) }
{
    put_counter(out, 2, counter);
    put_byte(out, code_of_kind(kind));
    put_deadline(out, deadline);
    put_upward(out, upward);
}

fn put_end(out: &mut Room, counter: u64, scope: u64, protocol: Protocol, participant: &Epr)
    ensures { out.new ≡ filled out.old (3 ∷ (counter_coding counter ++ (counter_coding scope ++ (protocol_code protocol ∷ endpoint_coding participant.now)))) }
{
    put_counter(out, 3, counter);
    put_long(out, scope);
    put_protocol(out, protocol);
    put_endpoint(out, participant);
}

fn put_part(out: &mut Room, counter: u64, protocol: Protocol, registration: &Epr)
    ensures { out.new ≡ filled out.old (4 ∷ (counter_coding counter ++ (protocol_code protocol ∷ endpoint_coding registration.now))) }
{
    put_counter(out, 4, counter);
    put_protocol(out, protocol);
    put_endpoint(out, registration);
}

fn put_enrolled(out: &mut Room, counter: u64, coordinator: &Epr)
    ensures { out.new ≡ filled out.old (5 ∷ (counter_coding counter ++ endpoint_coding coordinator.now)) }
{
    put_counter(out, 5, counter);
    put_endpoint(out, coordinator);
}

// The number of a kind, a counter and a byte.
fn put_small(out: &mut Room, kind: u8, counter: u64, byte: u8)
    ensures { out.new ≡ filled out.old (kind ∷ (counter_coding counter ++ byte ∷ [])) }
{
    put_counter(out, kind, counter);
    put_byte(out, byte);
}

// The number of a kind and a counter.
fn put_counter(out: &mut Room, kind: u8, counter: u64)
    ensures { out.new ≡ filled out.old (kind ∷ counter_coding counter) }
{
    put_byte(out, kind);
    put_long(out, counter);
}

fn put_byte(out: &mut Room, byte: u8)
    ensures { out.new ≡ filled out.old (byte ∷ []) }
{
    out.put_bytes(&[byte]);
}

// A number of 64 bits.
fn put_long(out: &mut Room, n: u64)
    ensures { out.new ≡ filled out.old (to_le_bytes w64 n) }
{
    out.put_bytes(n.to_le_bytes().as_slice());
}

fn put_protocol(out: &mut Room, protocol: Protocol)
    ensures { out.new ≡ filled out.old (protocol_code protocol ∷ []) }
{
    put_byte(out, code_of_protocol(protocol));
}

fn put_deadline(out: &mut Room, deadline: Option<u64>)
    ensures { out.new ≡ filled out.old (option_coding (to_le_bytes w64) deadline) }
{
    match deadline {
        None => put_byte(out, 0),
        Some(moment) => {
            put_byte(out, 1);
            put_long(out, moment);
        }
    }
}

fn put_upward(out: &mut Room, upward: &Option<(Protocol, Epr)>)
    ensures { out.new ≡ filled out.old (option_coding upward_coding upward.now) }
{
    match upward {
        None => put_byte(out, 0),
        Some((protocol, registration)) => {
            put_byte(out, 1);
            put_protocol(out, *protocol);
            put_endpoint(out, registration);
        }
    }
}

// The low byte of a count.
fn put_count(out: &mut Room, count: usize)
    ensures { out.new ≡ filled out.old (to_le_bytes w8 count) }
{
    let digits = count.to_le_bytes();
    out.put_bytes(&digits[..1]);
}

// The two low bytes of a length.
fn put_length(out: &mut Room, length: usize)
    ensures { out.new ≡ filled out.old (to_le_bytes w16 length) }
{
    let digits = length.to_le_bytes();
    out.put_bytes(&digits[..2]);
}

fn put_string(out: &mut Room, bytes: &Octets)
    ensures { out.new ≡ filled out.old (string_coding bytes.now) }
{
    put_length(out, bytes.len());
    out.put_bytes(bytes.as_slice());
}

fn put_namespace(out: &mut Room, space: &Namespace)
    ensures { out.new ≡ filled out.old (string_coding space.now) }
{
    let bytes = space.as_slice();
    put_length(out, bytes.len());
    out.put_bytes(bytes);
}

fn put_name(out: &mut Room, name: &Name)
    ensures { out.new ≡ filled out.old (name_coding name.now) }
{
    put_namespace(out, &name.space);
    put_string(out, &name.local);
}

fn put_attribute(out: &mut Room, attribute: &Attribute)
    ensures { out.new ≡ filled out.old (attribute_coding attribute.now) }
{
    put_name(out, &attribute.name);
    put_string(out, &attribute.value);
}

#[tactic(auto, using(crate::proofs::Parts::part_put, crate::proofs::Parts::all_put))]
fn put_attributes(out: &mut Room, attributes: &List<Attribute>)
    ensures { out.new ≡ filled out.old (to_le_bytes w8 (length attributes.now) ++ joined (map attribute_coding attributes.now)) }
{
    put_count(out, attributes.len());
    for attribute in attributes.as_slice() {
        put_attribute(out, attribute);
    }
}

#[cycle(writers)]
#[tactic(auto, using(crate::proofs::Trees::tree_is))]
fn put_tree(out: &mut Room, tree: &Tree)
    ensures { out.new ≡ filled out.old (tree_coding tree.now) }
{
    put_name(out, &tree.name);
    put_attributes(out, &tree.attributes);
    put_contents(out, &tree.content);
}

#[cycle(writers)]
#[tactic(auto, using(crate::proofs::Parts::part_put, crate::proofs::Parts::all_put))]
fn put_contents(out: &mut Room, contents: &List<Content>)
    ensures { out.new ≡ filled out.old (to_le_bytes w16 (length contents.now) ++ joined (map content_coding contents.now)) }
{
    put_length(out, contents.len());
    for content in contents.as_slice() {
        put_content(out, content);
    }
}

#[cycle(writers)]
#[tactic(auto, using(crate::proofs::Trees::text_coding, crate::proofs::Trees::child_coding))]
fn put_content(out: &mut Room, content: &Content)
    ensures { out.new ≡ filled out.old (content_coding content.now) }
{
    match content {
        Content::Text(text) => {
            put_byte(out, 0);
            put_string(out, text);
        }
        Content::Child(tree) => {
            put_byte(out, 1);
            put_tree(out, tree);
        }
    }
}

#[tactic(auto, using(crate::proofs::Parts::part_put, crate::proofs::Parts::all_put))]
fn put_endpoint(out: &mut Room, epr: &Epr)
    ensures { out.new ≡ filled out.old (endpoint_coding epr.now) }
{
    put_string(out, &epr.address);
    put_count(out, epr.parameters.len());
    for parameter in epr.parameters.as_slice() {
        put_tree(out, parameter);
    }
}

fn code_of_kind(kind: Kind) -> u8
    ensures { result ≡ kind_code kind }
{
    match kind {
        Kind::Atomic => 1,
        Kind::Mixed => 2,
    }
}

fn code_of_protocol(protocol: Protocol) -> u8
    ensures { result ≡ protocol_code protocol }
{
    match protocol {
        Protocol::Pc => 1,
        Protocol::Cc => 2,
    }
}

fn code_of_verdict(verdict: Verdict) -> u8
    ensures { result ≡ verdict_code verdict }
{
    match verdict {
        Verdict::Close => 1,
        Verdict::Undo => 2,
    }
}

fn code_of_act(act: Act) -> u8
    ensures { result ≡ act_code act }
{
    match act {
        Act::Completed => 1,
        Act::Closed => 2,
        Act::Canceled => 3,
        Act::Compensated => 4,
        Act::Fail => 5,
        Act::Exit => 6,
        Act::CannotComplete => 7,
    }
}
