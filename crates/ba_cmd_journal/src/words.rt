//! The words of a record, put behind other bytes.
ghost use Rattle.std.specs.Prelude.{◌≡◌, ◌++◌, codes, OnOk};
ghost use Rattle.std.specs.Fmt.{decimal};
ghost use Rattle.ba_core.specs.Words.{kind_word};
ghost use Rattle.ba_cmd_journal.specs.Listing.{record_words, refusal_word, choice_word};
ghost use Rattle.ba_cmd_journal.specs.Listing.{deadline_word, parameters_words, endpoint_words, link_words, upward_words};

use ba_core::{Kind, List, Memory, Octets, Protocol, name_of};
use ba_message::Epr;
use ba_record::Record;
use ba_tree::Tree;
use itoa::Buffer;

/// Puts the record's words last.
pub fn put_record(line: &mut Octets, r: &Record) -> Result<(), Memory>
    ensures { OnOk result (line.new ≡ line.old ++ record_words r.now) }
{
    match r {
        Record::Node(number, base) => put_node(line, *number, base),
        Record::Scope(counter, kind, deadline, upward) => put_scope(
            line, *counter, *kind, *deadline, upward,
        ),
        Record::End(counter, scope, protocol, participant) => put_end(
            line,
            *counter,
            *scope,
            *protocol,
            participant,
        ),
        Record::Part(counter, protocol, registration) => put_part(
            line,
            *counter,
            *protocol,
            registration,
        ),
        Record::Enrolled(counter, coordinator) => put_enrolled(line, *counter, coordinator),
        Record::Refused(counter, code) => put_refused(line, *counter, *code),
        Record::Received(counter, notice) => put_named(
            line,
            b"received ",
            *counter,
            name_of(*notice),
        ),
        Record::Acted(counter, act) => put_named(line, b"acted ", *counter, act.word()),
        Record::Decided(counter, verdict) => put_named(line, b"decided ", *counter, verdict.word()),
        Record::Chosen(counter, choice) => put_chosen(line, *counter, *choice),
        Record::Ticked(counter) => put_counted(line, b"ticked ", *counter),
        Record::Asked(counter) => put_counted(line, b"asked ", *counter),
    }
}

/// Puts the number in decimal last.
pub fn put_number(line: &mut Octets, number: u64) -> Result<(), Memory>
    ensures { OnOk result (line.new ≡ line.old ++ decimal number) }
{
    line.append(Buffer::new().format(number).as_bytes())
}

/// Puts a word and a number last.
pub fn put_counted(line: &mut Octets, word: &[u8], number: u64) -> Result<(), Memory>
    ensures { OnOk result (line.new ≡ line.old ++ (word.now ++ decimal number)) }
{
    line.append(word)?;
    put_number(line, number)
}

// A word, a number, a space and a name.
fn put_named(line: &mut Octets, word: &[u8], number: u64, name: &[u8]) -> Result<(), Memory>
    ensures { OnOk result (line.new ≡ line.old ++ (word.now ++ (decimal number ++ (codes " " ++ name.now)))) }
{
    put_counted(line, word, number)?;
    line.append(b" ")?;
    line.append(name)
}

fn put_node(line: &mut Octets, number: u32, base: &Octets) -> Result<(), Memory>
    ensures { OnOk result (line.new ≡ line.old ++ (codes "node " ++ (decimal number ++ (codes " " ++ base.now)))) }
{
    put_named(line, b"node ", u64::from(number), base.as_slice())
}

fn put_scope(
    line: &mut Octets,
    counter: u64,
    kind: Kind,
    deadline: Option<u64>,
    upward: &Option<(Protocol, Epr)>,
) -> Result<(), Memory>
    ensures { OnOk result (line.new ≡ line.old ++ (codes "scope " ++ (decimal counter ++ (codes " " ++ (kind_word kind ++ (codes " " ++ (deadline_word deadline ++ upward_words upward.now))))))) }
{
    put_named(line, b"scope ", counter, kind.word())?;
    line.append(b" ")?;
    put_deadline(line, deadline)?;
    put_upward(line, upward)
}

fn put_deadline(line: &mut Octets, deadline: Option<u64>) -> Result<(), Memory>
    ensures { OnOk result (line.new ≡ line.old ++ deadline_word deadline) }
{
    match deadline {
        None => line.append(b"-"),
        Some(moment) => put_number(line, moment),
    }
}

fn put_upward(line: &mut Octets, upward: &Option<(Protocol, Epr)>) -> Result<(), Memory>
    ensures { OnOk result (line.new ≡ line.old ++ upward_words upward.now) }
{
    match upward {
        None => Ok(()),
        Some((protocol, registration)) => {
            line.append(b" up")?;
            put_link(line, *protocol, registration)
        }
    }
}

fn put_end(
    line: &mut Octets,
    counter: u64,
    scope: u64,
    protocol: Protocol,
    participant: &Epr,
) -> Result<(), Memory>
    ensures { OnOk result (line.new ≡ line.old ++ (codes "end " ++ (decimal counter ++ (codes " " ++ (decimal scope ++ link_words protocol participant.now))))) }
{
    put_counted(line, b"end ", counter)?;
    put_counted(line, b" ", scope)?;
    put_link(line, protocol, participant)
}

fn put_part(
    line: &mut Octets,
    counter: u64,
    protocol: Protocol,
    registration: &Epr,
) -> Result<(), Memory>
    ensures { OnOk result (line.new ≡ line.old ++ (codes "part " ++ (decimal counter ++ link_words protocol registration.now))) }
{
    put_counted(line, b"part ", counter)?;
    put_link(line, protocol, registration)
}

fn put_enrolled(line: &mut Octets, counter: u64, coordinator: &Epr) -> Result<(), Memory>
    ensures { OnOk result (line.new ≡ line.old ++ (codes "enrolled " ++ (decimal counter ++ (codes " " ++ endpoint_words coordinator.now)))) }
{
    put_counted(line, b"enrolled ", counter)?;
    line.append(b" ")?;
    put_endpoint(line, coordinator)
}

fn put_refused(line: &mut Octets, counter: u64, code: u8) -> Result<(), Memory>
    ensures { OnOk result (line.new ≡ line.old ++ (codes "refused " ++ (decimal counter ++ (codes " " ++ refusal_word code)))) }
{
    put_counted(line, b"refused ", counter)?;
    line.append(b" ")?;
    put_refusal(line, code)
}

fn put_refusal(line: &mut Octets, code: u8) -> Result<(), Memory>
    ensures { OnOk result (line.new ≡ line.old ++ refusal_word code) }
{
    match code {
        1 => line.append(b"CannotRegisterParticipant"),
        2 => line.append(b"InvalidProtocol"),
        _ => put_number(line, u64::from(code)),
    }
}

fn put_chosen(line: &mut Octets, counter: u64, choice: u8) -> Result<(), Memory>
    ensures { OnOk result (line.new ≡ line.old ++ (codes "chosen " ++ (decimal counter ++ (codes " " ++ choice_word choice)))) }
{
    put_counted(line, b"chosen ", counter)?;
    line.append(b" ")?;
    put_choice(line, choice)
}

fn put_choice(line: &mut Octets, choice: u8) -> Result<(), Memory>
    ensures { OnOk result (line.new ≡ line.old ++ choice_word choice) }
{
    match choice {
        1 => line.append(b"close"),
        2 => line.append(b"undo"),
        3 => line.append(b"complete"),
        _ => put_number(line, u64::from(choice)),
    }
}

// A space, the protocol, a space and the endpoint.
fn put_link(line: &mut Octets, protocol: Protocol, epr: &Epr) -> Result<(), Memory>
    ensures { OnOk result (line.new ≡ line.old ++ link_words protocol epr.now) }
{
    line.append(b" ")?;
    line.append(protocol.word())?;
    line.append(b" ")?;
    put_endpoint(line, epr)
}

fn put_endpoint(line: &mut Octets, epr: &Epr) -> Result<(), Memory>
    ensures { OnOk result (line.new ≡ line.old ++ endpoint_words epr.now) }
{
    line.append(epr.address.as_slice())?;
    put_parameters(line, &epr.parameters)
}

fn put_parameters(line: &mut Octets, parameters: &List<Tree>) -> Result<(), Memory>
    ensures { OnOk result (line.new ≡ line.old ++ parameters_words parameters.now) }
{
    if parameters.is_empty() {
        return Ok(());
    }
    put_counted(line, b" +", parameters.len() as u64)
}
