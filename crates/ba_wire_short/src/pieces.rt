//! The pieces of canonical texts that are the same in each letter, each reply, or each body of a kind.

/// Before the header blocks.
pub const ENVELOPE: &[u8] =
    b"<soap:Envelope xmlns:soap=\"http://schemas.xmlsoap.org/soap/envelope/\" xmlns:wsa=\"http://www.w3.org/2005/08/addressing\" xmlns:wscoor=\"http://docs.oasis-open.org/ws-tx/wscoor/2006/06\" xmlns:wsba=\"http://docs.oasis-open.org/ws-tx/wsba/2006/06\"><soap:Header>";

/// Before the address of a letter.
pub const TO: &[u8] = b"<wsa:To>";

/// Between the address and the action of a letter.
pub const TO_ACTION: &[u8] = b"</wsa:To><wsa:Action>";

/// Before the action of a reply.
pub const ACTION: &[u8] = b"<wsa:Action>";

/// Between the action and the number of a letter.
pub const ACTION_NUMBER: &[u8] = b"</wsa:Action><wsa:MessageID>";

/// Between the action of a reply and the number of the letter that it answers.
pub const ACTION_RELATED: &[u8] = b"</wsa:Action><wsa:RelatesTo>";

/// Between the number of a letter and its body.
pub const NUMBER_BODY: &[u8] = b"</wsa:MessageID></soap:Header><soap:Body>";

/// Between the number of a notice and the address of the endpoint whose it is.
pub const NUMBER_SOURCE: &[u8] = b"</wsa:MessageID><wsa:From><wsa:Address>";

/// Between that address and the body: no reply is wanted.
pub const SOURCE_BODY: &[u8] =
    b"</wsa:Address></wsa:From><wsa:ReplyTo><wsa:Address>http://www.w3.org/2005/08/addressing/none</wsa:Address></wsa:ReplyTo></soap:Header><soap:Body>";

/// Between the number of the letter that a reply answers and its body.
pub const RELATED_BODY: &[u8] = b"</wsa:RelatesTo></soap:Header><soap:Body>";

/// After the body.
pub const END: &[u8] = b"</soap:Body></soap:Envelope>";

/// Before the name of a notice that is an empty element.
pub const NOTICE: &[u8] = b"<wsba:";

/// After it.
pub const NOTICE_END: &[u8] = b"/>";

/// The body of Fail.
pub const FAIL: &[u8] =
    b"<wsba:Fail><wsba:ExceptionIdentifier>wsba:Fail</wsba:ExceptionIdentifier></wsba:Fail>";

/// Before the address of a participant that registers for ParticipantCompletion.
pub const REGISTER_PC: &[u8] =
    b"<wscoor:Register><wscoor:ProtocolIdentifier>http://docs.oasis-open.org/ws-tx/wsba/2006/06/ParticipantCompletion</wscoor:ProtocolIdentifier><wscoor:ParticipantProtocolService><wsa:Address>";

/// Before the address of one that registers for CoordinatorCompletion.
pub const REGISTER_CC: &[u8] =
    b"<wscoor:Register><wscoor:ProtocolIdentifier>http://docs.oasis-open.org/ws-tx/wsba/2006/06/CoordinatorCompletion</wscoor:ProtocolIdentifier><wscoor:ParticipantProtocolService><wsa:Address>";

/// After the address of a participant that registers.
pub const REGISTER_END: &[u8] =
    b"</wsa:Address></wscoor:ParticipantProtocolService></wscoor:Register>";

/// Before the address of a coordinator at which a participant is registered.
pub const REGISTERED: &[u8] =
    b"<wscoor:RegisterResponse><wscoor:CoordinatorProtocolService><wsa:Address>";

/// After it.
pub const REGISTERED_END: &[u8] =
    b"</wsa:Address></wscoor:CoordinatorProtocolService></wscoor:RegisterResponse>";

/// Before the name of a notice in its action.
pub const ACTION_OF_NOTICES: &[u8] = b"http://docs.oasis-open.org/ws-tx/wsba/2006/06/";

/// The action of Register.
pub const ACTION_OF_REGISTER: &[u8] = b"http://docs.oasis-open.org/ws-tx/wscoor/2006/06/Register";

/// The action of RegisterResponse.
pub const ACTION_OF_REGISTERED: &[u8] =
    b"http://docs.oasis-open.org/ws-tx/wscoor/2006/06/RegisterResponse";
