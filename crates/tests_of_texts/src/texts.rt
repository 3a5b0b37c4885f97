//! Worked envelopes are read in pieces as they are at once, and a fault stays. Canonical texts were worked out by hand.

ghost use Rattle.std.specs.Prelude.{◌≤◌, ◌<◌, length};

use ba_core::{List, Octets};
use ba_xml::{Reader, Reason, XmlFault, read, write};
use std::alloc::Global;
use std::test::Fail;

const REGISTER: &[u8] = b"<?xml version=\"1.0\" encoding=\"UTF-8\"?>
<S:Envelope xmlns:S=\"http://schemas.xmlsoap.org/soap/envelope/\"><S:Header>\
<To xmlns=\"http://www.w3.org/2005/08/addressing\">\
http://node1/registration/00000000-0000-0001-0000-000000000001</To>\
<Action xmlns=\"http://www.w3.org/2005/08/addressing\" S:mustUnderstand=\"1\">\
http://docs.oasis-open.org/ws-tx/wscoor/2006/06/Register</Action>\
<ReplyTo xmlns=\"http://www.w3.org/2005/08/addressing\">\
<Address>http://www.w3.org/2005/08/addressing/anonymous</Address></ReplyTo>\
<MessageID xmlns=\"http://www.w3.org/2005/08/addressing\">uuid:77</MessageID>\
<t:Trace xmlns:t=\"urn:trace\">9</t:Trace></S:Header><S:Body>\
<c:Register xmlns:c=\"http://docs.oasis-open.org/ws-tx/wscoor/2006/06\" \
xmlns:a=\"http://www.w3.org/2005/08/addressing\"><c:ProtocolIdentifier>\
http://docs.oasis-open.org/ws-tx/wsba/2006/06/ParticipantCompletion</c:ProtocolIdentifier>\
<c:ParticipantProtocolService><a:Address>http://127.0.0.1:9000/p</a:Address>\
<a:ReferenceParameters><i:Key xmlns:i=\"urn:app\">42</i:Key></a:ReferenceParameters>\
</c:ParticipantProtocolService></c:Register></S:Body></S:Envelope>";

const CANONICAL_REGISTER: &[u8] =
    b"<soap:Envelope xmlns:soap=\"http://schemas.xmlsoap.org/soap/envelope/\" \
xmlns:wsa=\"http://www.w3.org/2005/08/addressing\" \
xmlns:wscoor=\"http://docs.oasis-open.org/ws-tx/wscoor/2006/06\" \
xmlns:wsba=\"http://docs.oasis-open.org/ws-tx/wsba/2006/06\" \
xmlns:n1=\"urn:trace\" xmlns:n2=\"urn:app\"><soap:Header>\
<wsa:To>http://node1/registration/00000000-0000-0001-0000-000000000001</wsa:To>\
<wsa:Action soap:mustUnderstand=\"1\">http://docs.oasis-open.org/ws-tx/wscoor/2006/06/Register</wsa:Action>\
<wsa:ReplyTo><wsa:Address>http://www.w3.org/2005/08/addressing/anonymous</wsa:Address></wsa:ReplyTo>\
<wsa:MessageID>uuid:77</wsa:MessageID><n1:Trace>9</n1:Trace></soap:Header><soap:Body>\
<wscoor:Register><wscoor:ProtocolIdentifier>\
http://docs.oasis-open.org/ws-tx/wsba/2006/06/ParticipantCompletion</wscoor:ProtocolIdentifier>\
<wscoor:ParticipantProtocolService><wsa:Address>http://127.0.0.1:9000/p</wsa:Address>\
<wsa:ReferenceParameters><n2:Key>42</n2:Key></wsa:ReferenceParameters></wscoor:ParticipantProtocolService>\
</wscoor:Register></soap:Body></soap:Envelope>";

const STATUS: &[u8] = b"<s:Envelope xmlns:s='http://schemas.xmlsoap.org/soap/envelope/'><s:Header>\
<Action xmlns='http://www.w3.org/2005/08/addressing'>http://docs.oasis-open.org/ws-tx/wsba/2006/06/Status</Action>\
</s:Header><s:Body><b:Status xmlns:b='http://docs.oasis-open.org/ws-tx/wsba/2006/06'>\
<b:State>b:Closing</b:State></b:Status></s:Body></s:Envelope>";

const CANONICAL_STATUS: &[u8] =
    b"<soap:Envelope xmlns:soap=\"http://schemas.xmlsoap.org/soap/envelope/\" \
xmlns:wsa=\"http://www.w3.org/2005/08/addressing\" \
xmlns:wscoor=\"http://docs.oasis-open.org/ws-tx/wscoor/2006/06\" \
xmlns:wsba=\"http://docs.oasis-open.org/ws-tx/wsba/2006/06\"><soap:Header>\
<wsa:Action>http://docs.oasis-open.org/ws-tx/wsba/2006/06/Status</wsa:Action></soap:Header><soap:Body>\
<wsba:Status><wsba:State>b:Closing</wsba:State></wsba:Status></soap:Body></soap:Envelope>";

// The canonical text of what a reader was fed.
fn canonical(alloc: Global, reader: Reader) -> Result<Octets, XmlFault> {
    let tree = reader.end()?;
    let mut text = List::new(alloc);
    write(alloc, &tree, &mut text)?;
    Ok(text)
}

fn in_pieces(alloc: Global, bytes: &[u8], size: usize) -> Result<Octets, XmlFault>
    requires { 0 < size }
{
    let mut reader = Reader::new(alloc)?;
    for piece in bytes.chunks(size) {
        reader.feed(piece)?;
    }
    canonical(alloc, reader)
}

fn cut_at(alloc: Global, bytes: &[u8], at: usize) -> Result<Octets, XmlFault>
    requires { at ≤ length bytes.now }
{
    let mut reader = Reader::new(alloc)?;
    reader.feed(&bytes[..at])?;
    reader.feed(&bytes[at..])?;
    canonical(alloc, reader)
}

#[test]
fn any_pieces(rt: HostRuntime) -> Result<(), Fail> {
    let alloc = rt.alloc();
    for (text, written) in [(REGISTER, CANONICAL_REGISTER), (STATUS, CANONICAL_STATUS)] {
        for size in 1..8 {
            let read = in_pieces(alloc, text, size)?;
            assert_eq!(rt; read.as_slice(), written);
        }
    }
    Ok(())
}

#[test]
fn any_cut(rt: HostRuntime) -> Result<(), Fail> {
    let alloc = rt.alloc();
    for (text, written) in [(REGISTER, CANONICAL_REGISTER), (STATUS, CANONICAL_STATUS)] {
        for at in 0..text.len() + 1 {
            let read = cut_at(alloc, text, at)?;
            assert_eq!(rt; read.as_slice(), written);
        }
    }
    Ok(())
}

// `<a></b>` is refused at its `b`, in whatever pieces; and an early end is no fault before the end.
#[test]
fn fault_stays(rt: HostRuntime) -> Result<(), Fail> {
    let alloc = rt.alloc();
    let fault = XmlFault::At {
        reason: Reason::Syntax,
        place: 5,
    };
    let mut reader = Reader::new(alloc)?;
    assert_eq!(rt; reader.feed(b"<a>"), Ok(()));
    assert_eq!(rt; reader.feed(b""), Ok(()));
    assert_eq!(rt; reader.feed(b"</b>"), Err(fault));
    assert_eq!(rt; reader.feed(b"</a>"), Err(fault));
    assert_eq!(rt; reader.feed(b""), Err(fault));
    assert_eq!(rt; reader.end().err(), Some(fault));
    assert_eq!(rt; read(alloc, b"<a></b></a>").err(), Some(fault));
    Ok(())
}
