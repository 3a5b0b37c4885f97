//! Each command and each note once, through `run` over a source and sinks in memory.

use crate::run::run;
use ba_core::{List, Octets};
use ba_ports_memory::{Out, Text};
use std::alloc::{AllocError, Global};
use std::test::Fail;

// The file of node 1 with the base http://node1: the header, one frame, and the last gate.
const JOURNAL: &[u8] =
    b"\x01BAJOURNAL\x01\0\0\0\0\0\x01\x13\0\0\0\x01\x01\0\0\0\x0c\0http://node1\0";

// An envelope, and what is printed of it.
const CLOSE: &[u8] = b"<s:Envelope xmlns:s='http://schemas.xmlsoap.org/soap/envelope/'><s:Header>\
<Action xmlns='http://www.w3.org/2005/08/addressing'> http://docs.oasis-open.org/ws-tx/wsba/2006/06/Close\n</Action></s:Header>\
<s:Body><Close xmlns='http://docs.oasis-open.org/ws-tx/wsba/2006/06'/></s:Body></s:Envelope>";

const CLOSED: &[u8] = b"message Close\n\
<soap:Envelope xmlns:soap=\"http://schemas.xmlsoap.org/soap/envelope/\" \
xmlns:wsa=\"http://www.w3.org/2005/08/addressing\" \
xmlns:wscoor=\"http://docs.oasis-open.org/ws-tx/wscoor/2006/06\" \
xmlns:wsba=\"http://docs.oasis-open.org/ws-tx/wsba/2006/06\"><soap:Header><wsa:Action>\
http://docs.oasis-open.org/ws-tx/wsba/2006/06/Close</wsa:Action></soap:Header>\
<soap:Body><wsba:Close/></soap:Body></soap:Envelope>\n";
// No message has this action.
const UNKNOWN: &[u8] = b"<s:Envelope xmlns:s='http://schemas.xmlsoap.org/soap/envelope/'><s:Header>\
<Action xmlns='http://www.w3.org/2005/08/addressing'>urn:action</Action></s:Header><s:Body><a/></s:Body></s:Envelope>";

// Words and input; a read and a write that fail, 0 where none does; the status, the output and the note.
type Row = (
    &'static [&'static str],
    &'static [u8],
    u64,
    u64,
    u8,
    &'static [u8],
    &'static [u8],
);

const ROWS: [Row; 19] = [
    (&[], b"", 0, 0, 2, b"", b"usage\n"),
    (&["replay", "replay"], b"", 0, 0, 2, b"", b"usage\n"),
    (
        &["replay"],
        b"act exit\n",
        0,
        0,
        0,
        b"1 C=Active P=Exiting bag=0\n",
        b"",
    ),
    (
        &["replay"],
        b"tick c\ntick  c\n",
        0,
        0,
        3,
        b"",
        b"line 2 column 6\n",
    ),
    (
        &["replay"],
        b"deliver 1",
        0,
        0,
        3,
        b"",
        b"line 1 no such message\n",
    ),
    (
        &["replay"],
        b"nodes 1\ncreate 2 mixed",
        0,
        0,
        3,
        b"",
        b"line 2 no such name\n",
    ),
    (
        &["replay"],
        b"nodes 1\ncreate 1 mixed\ncrash 1\n",
        0,
        0,
        0,
        b"2 ok 1.1\n3 ok\nnode 1 down\nbag=0\n",
        b"",
    ),
    (&["replay"], b"act exit\n", 1, 0, 4, b"", b"read\n"),
    (&["replay"], b"act exit\n", 0, 1, 5, b"", b"write\n"),
    (&["check"], b"<a></b>", 0, 0, 3, b"", b"xml 2 at 5\n"),
    (&["check"], b"<a/>", 0, 0, 3, b"", b"soap 17\n"),
    (&["check"], UNKNOWN, 0, 0, 3, b"", b"wire 21\n"),
    (&["check"], CLOSE, 0, 0, 0, CLOSED, b""),
    (&["check"], CLOSE, 1, 0, 4, b"", b"read\n"),
    (&["check"], CLOSE, 0, 1, 5, b"", b"write\n"),
    (
        &["journal"],
        JOURNAL,
        0,
        0,
        0,
        b"0 node 1 http://node1\nend at 40 tail 0\n",
        b"",
    ),
    (
        &["journal"],
        b"<a xmlns='http://node1'/>",
        0,
        0,
        3,
        b"",
        b"journal at 0\n",
    ),
    (&["journal"], JOURNAL, 3, 0, 4, b"", b"read\n"),
    (&["journal"], JOURNAL, 0, 1, 5, b"", b"write\n"),
];

fn words_of(alloc: Global, words: &[&str]) -> Result<Vec<String>, AllocError> {
    let mut all = Vec::new(alloc);
    for word in words {
        all.push(String::from_str(alloc, word)?)?;
    }
    Ok(all)
}

fn only(alloc: Global, call: u64) -> Result<List<u64>, AllocError> {
    Ok(List::of(vec![in alloc; call]?))
}

#[test]
fn each_command_and_note(rt: HostRuntime) -> Result<(), Fail> {
    let alloc = rt.alloc();
    for (words, input, unread, unwritten, status, output, note) in ROWS {
        let words = words_of(alloc, words)?;
        let bytes = Octets::of(Vec::from_slice(alloc, input)?);
        let mut source = Text::of(bytes, 7, only(alloc, unread)?);
        let mut sink = Out::of(alloc, 1000, only(alloc, unwritten)?);
        let mut notes = Out::of(alloc, 100, List::new(alloc));
        assert_eq!(rt;
            run(
                alloc,
                words.as_slice(),
                &mut source,
                &mut sink,
                &mut notes,
                &mut List::new(alloc)
            ),
            status
        );
        assert_eq!(rt; sink.bytes(), output);
        assert_eq!(rt; notes.bytes(), note);
    }
    Ok(())
}
