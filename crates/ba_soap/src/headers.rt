//! Envelopes and the headers of WS-Addressing.
ghost use Rattle.std.specs.Prelude.{◌≡◌, ◌++◌, [], ℕ, Bool, None, Some, Option, IfOk, MatchOption, length, map, filter, find, not, codes};
ghost use Rattle.std.specs.List.{list_any, list_all, position};
ghost use Rattle.ba_soap_shapes.specs.Elements.{children};
ghost use Rattle.ba_soap_shapes.specs.Endpoints.{unmarked_tree};
ghost use Rattle.ba_soap.specs.Envelopes.{Dialect as TheDialect, IsSoapAnswer, is_reply_relation, stands_once, has_text, lacks_address, is_invalid, invalid_header, first_invalid_header, answer_by_parts, answer_by_body, answer_unless_refused, blocks_refusal, envelope_by_blocks, first_refusal, envelope_answer, flag_of, has_bad_flag, header_name, header_of, headers, is_called, is_header, is_looked_at, is_not_understood, is_parameter, is_left_out_or_one_of, one_of, option_is_one_of, value_at};

use ba_core::{List, Memory, Octets};
use ba_soap_shapes::{ADDRESS, child_at, text_of, unmarked};
use ba_tree::{Attribute, Content, Name, SOAP_SPACE, Tree, WSA_SPACE};
use std::alloc::Global;
use thiserror::Error;

/// A header of WS-Addressing.
#[derive(Clone, Copy, Debug, PartialEq, Eq)]
pub enum Header {
    To,
    From,
    ReplyTo,
    FaultTo,
    Action,
    MessageID,
    RelatesTo,
}

/// Where a reply is wanted.
#[derive(Clone, Copy, Debug, PartialEq, Eq)]
pub enum ReplyTo {
    Absent,
    Anonymous,
    Elsewhere,
}

/// What an envelope says.
#[derive(Debug, Drop)]
pub struct Envelope {
    pub to: Option<Octets>,
    pub action: Octets,
    pub message_id: Option<Octets>,
    pub relates_to: Option<Octets>,
    pub reply: ReplyTo,
    pub parameters: List<Tree>,
    pub body: Tree,
}

/// Why an element is no envelope that this product takes.
#[derive(Clone, Copy, Debug, PartialEq, Eq, Error)]
pub enum SoapFault {
    #[error("out of memory")]
    Memory,
    #[error("an envelope of another version")]
    VersionMismatch,
    /// The number of the header block, from 0.
    #[error("header block {0} isn't understood")]
    MustUnderstand(u32),
    #[error("no body")]
    NoBody,
    #[error("a header is missing")]
    HeaderRequired(Header),
    #[error("a header is invalid")]
    InvalidHeader(Header),
    #[error("no envelope")]
    Shape,
}

/// A version of SOAP.
pub trait Dialect {
    ghost sheet: { Self → TheDialect };

    /// The namespace of its elements and attributes.
    fn space(&self) -> &'static [u8]
        ensures { result.now ≡ (sheet self.now).space };

    /// The attribute that says for whom a block is.
    fn role(&self) -> &'static [u8]
        ensures { result.now ≡ (sheet self.now).role };

    /// Whether a block of this role is for this node.
    fn is_ours(&self, role: &[u8]) -> bool
        ensures { result ≡ one_of (sheet self.now).ours role.now };

    /// Whether a block with this flag has to be understood.
    fn must(&self, flag: &[u8]) -> bool
        ensures { result ≡ one_of (sheet self.now).must flag.now };

    /// Whether this flag is one.
    fn is_flag(&self, flag: &[u8]) -> bool
        ensures { result ≡ one_of ((sheet self.now).must ++ (sheet self.now).may) flag.now };
}

/// SOAP 1.1.
#[derive(Clone, Copy, Debug)]
pub struct Soap11;

impl Dialect for Soap11 {
    ghost use Rattle.ba_soap.specs.Envelopes.{soap11};

    ghost sheet = { λ it. soap11 };

    fn space(&self) -> &'static [u8] {
        SOAP_SPACE
    }

    fn role(&self) -> &'static [u8] {
        b"actor"
    }

    fn is_ours(&self, role: &[u8]) -> bool {
        role == b"".as_slice() || role == b"http://schemas.xmlsoap.org/soap/actor/next".as_slice()
    }

    fn must(&self, flag: &[u8]) -> bool {
        flag == b"1".as_slice()
    }

    fn is_flag(&self, flag: &[u8]) -> bool {
        flag == b"1".as_slice() || flag == b"0".as_slice()
    }
}

/// True if the name has this namespace and this local part. The local part is looked at first: it is short, and most often tells.
#[tactic(auto, using(crate::proofs::BlockLaws::in_either_order))]
pub fn is_called(name: &Name, space: &[u8], local: &[u8]) -> bool
    ensures { result ≡ is_called space.now local.now name.now }
{
    name.local.as_slice() == local && name.space.as_slice() == space
}

/// The value of the first attribute of this name.
fn value_at<'a>(attributes: &'a [Attribute], space: &[u8], local: &[u8]) -> Option<&'a [u8]>
    ensures { MatchOption result (value_at space.now local.now attributes.now ≡ None) (λ value. value_at space.now local.now attributes.now ≡ Some value.now) }
{
    for attribute in attributes {
        if is_called(&attribute.name, space, local) {
            return Some(attribute.value.as_slice());
        }
    }
    None
}

fn is_parameter(block: &Tree) -> bool
    ensures { result ≡ is_parameter block.now }
{
    let wsa = WSA_SPACE;
    match value_at(
        block.attributes.as_slice(),
        wsa,
        b"IsReferenceParameter".as_slice(),
    ) {
        None => false,
        Some(value) => value == b"true".as_slice() || value == b"1".as_slice(),
    }
}

fn is_looked_at<D: Dialect>(dialect: &D, block: &Tree) -> bool
    ensures { result ≡ is_looked_at (D.sheet dialect.now) block.now }
{
    if is_parameter(block) {
        return false;
    }
    match value_at(block.attributes.as_slice(), dialect.space(), dialect.role()) {
        None => true,
        Some(role) => dialect.is_ours(role),
    }
}

fn has_bad_flag<D: Dialect>(dialect: &D, block: &Tree) -> bool
    ensures { result ≡ has_bad_flag (D.sheet dialect.now) block.now }
{
    if !is_looked_at(dialect, block) {
        return false;
    }
    match value_at(
        block.attributes.as_slice(),
        dialect.space(),
        b"mustUnderstand".as_slice(),
    ) {
        None => false,
        Some(flag) => !dialect.is_flag(flag),
    }
}

fn is_not_understood<D: Dialect>(dialect: &D, block: &Tree) -> bool
    ensures { result ≡ is_not_understood (D.sheet dialect.now) block.now }
{
    if !is_looked_at(dialect, block) {
        return false;
    }
    match value_at(
        block.attributes.as_slice(),
        dialect.space(),
        b"mustUnderstand".as_slice(),
    ) {
        None => false,
        Some(flag) => dialect.must(flag) && header_of(block).is_none(),
    }
}

impl Header {
    /// The local name of its block.
    pub fn name(self) -> &'static [u8]
        ensures { result.now ≡ header_name self }
    {
        match self {
            Header::To => b"To",
            Header::From => b"From",
            Header::ReplyTo => b"ReplyTo",
            Header::FaultTo => b"FaultTo",
            Header::Action => b"Action",
            Header::MessageID => b"MessageID",
            Header::RelatesTo => b"RelatesTo",
        }
    }

    fn names(self, block: &Tree) -> bool
        ensures { result ≡ is_header self block.now }
    {
        let wsa = WSA_SPACE;
        is_called(&block.name, wsa, self.name())
    }
}

const HEADERS: [Header; 7] = [
    Header::To,
    Header::From,
    Header::ReplyTo,
    Header::FaultTo,
    Header::Action,
    Header::MessageID,
    Header::RelatesTo,
];

/// Which header of WS-Addressing a block is.
fn header_of(block: &Tree) -> Option<Header>
    ensures { result ≡ header_of block.now }
{
    HEADERS.iter().copied().find(|header| header.names(block))
}

/// The child elements, in their order.
pub fn children<'a>(alloc: Global, content: &'a [Content]) -> Result<Vec<&'a Tree>, Memory>
    ensures { IfOk result (λ found. map (λ child. child.now) found.items ≡ children content.now) }
{
    let mut found = Vec::new(alloc);
    for part in content {
        if let Content::Child(child) = part {
            match found.push(child) {
                Ok(()) => {}
                Err(_) => return Err(Memory),
            }
        }
    }
    Ok(found)
}

pub fn has_any_bad_flag<D: Dialect>(dialect: &D, blocks: &[&Tree]) -> bool
    ensures { result ≡ list_any (has_bad_flag (D.sheet dialect.now)) (map (λ block. block.now) blocks.now) }
{
    for block in blocks {
        if has_bad_flag(dialect, *block) {
            return true;
        }
    }
    false
}

/// The number of the first block that has to be understood and isn't.
#[tactic(auto, using(crate::proofs::BlockLaws::position_map))]
pub fn first_not_understood<D: Dialect>(dialect: &D, blocks: &[&Tree]) -> Option<usize>
    ensures { result ≡ position (is_not_understood (D.sheet dialect.now)) (map (λ block. block.now) blocks.now) }
{
    position_of_not_understood(dialect, blocks)
}

fn position_of_not_understood<D: Dialect>(dialect: &D, blocks: &[&Tree]) -> Option<usize>
    ensures { result ≡ position (λ block. is_not_understood (D.sheet dialect.now) block.now) blocks.now }
{
    blocks
        .iter()
        .position(|block| is_not_understood(dialect, *block))
}

/// The blocks that are looked at.
pub fn looked_at<'a, D: Dialect>(
    alloc: Global,
    dialect: &D,
    blocks: &[&'a Tree],
) -> Result<Vec<&'a Tree>, Memory>
    ensures { IfOk result (λ mine. map (λ block. block.now) mine.items ≡ filter (is_looked_at (D.sheet dialect.now)) (map (λ block. block.now) blocks.now)) }
{
    let mut mine = Vec::new(alloc);
    for block in blocks {
        if is_looked_at(dialect, *block) {
            match mine.push(*block) {
                Ok(()) => {}
                Err(_) => return Err(Memory),
            }
        }
    }
    Ok(mine)
}

fn stands_before(header: Header, before: &[&Tree]) -> bool
    ensures { result ≡ list_any (is_header header) (map (λ block. block.now) before.now) }
{
    for block in before {
        if header.names(*block) {
            return true;
        }
    }
    false
}

impl From<Memory> for SoapFault {
    ghost use Rattle.std.specs.Prelude.{◌≡◌};
    ghost use Rattle.ba_soap.specs.declared.headers.SoapFault.TheVariants as fault;

    ghost from_gives = { λ _ e. e ≡ fault.Memory };

    fn from(_e: Memory) -> SoapFault {
        SoapFault::Memory
    }
}

pub fn find_header<'a>(header: Header, mine: &[&'a Tree]) -> Option<&'a Tree>
    ensures { MatchOption result (find (is_header header) (map (λ block. block.now) mine.now) ≡ None) (λ block. find (is_header header) (map (λ b. b.now) mine.now) ≡ Some block.now) }
{
    for block in mine {
        if header.names(*block) {
            return Some(*block);
        }
    }
    None
}

pub fn find_related<'a>(mine: &[&'a Tree]) -> Option<&'a Tree>
    ensures { MatchOption result (find is_reply_relation (map (λ block. block.now) mine.now) ≡ None) (λ block. find is_reply_relation (map (λ b. b.now) mine.now) ≡ Some block.now) }
{
    for block in mine {
        if relates(*block) {
            return Some(*block);
        }
    }
    None
}

/// Whether the block says to which message this is a reply.
fn relates(block: &Tree) -> bool
    ensures { result ≡ is_reply_relation block.now }
{
    if !Header::RelatesTo.names(block) {
        return false;
    }
    match value_at(
        block.attributes.as_slice(),
        b"".as_slice(),
        b"RelationshipType".as_slice(),
    ) {
        None => true,
        Some(kind) => kind == b"http://www.w3.org/2005/08/addressing/reply".as_slice(),
    }
}

pub fn parameters(alloc: Global, blocks: &[&Tree]) -> Result<List<Tree>, Memory>
    ensures { IfOk result (λ found. found ≡ map unmarked_tree (filter is_parameter (map (λ block. block.now) blocks.now))) }
{
    let mut found = List::new(alloc);
    for block in blocks {
        if is_parameter(*block) {
            let parameter = unmarked(alloc, *block)?;
            if found.push(parameter).is_err() {
                return Err(Memory);
            }
        }
    }
    Ok(found)
}

impl Header {
    fn stands_once(self) -> bool
        ensures { result ≡ stands_once self }
    {
        !matches!(self, Header::RelatesTo)
    }

    fn has_text(self) -> bool
        ensures { result ≡ has_text self }
    {
        !matches!(self, Header::From | Header::ReplyTo | Header::FaultTo)
    }
}

fn lacks_address(header: Header, block: &Tree) -> bool
    ensures { result ≡ lacks_address header block.now }
{
    match header {
        Header::ReplyTo => child_at(&ADDRESS, block).is_none(),
        _ => false,
    }
}

fn is_invalid(alloc: Global, header: Header, before: &[&Tree], block: &Tree) -> Result<bool, Memory>
    ensures { IfOk result (λ is. is ≡ is_invalid header (map (λ b. b.now) before.now) block.now) }
{
    if header.stands_once() && stands_before(header, before) {
        return Ok(true);
    }
    if header.has_text() {
        let text = text_of(alloc, block)?;
        if text.is_empty() {
            return Ok(true);
        }
    }
    Ok(lacks_address(header, block))
}

fn invalid(alloc: Global, before: &[&Tree], block: &Tree) -> Result<Option<SoapFault>, Memory>
    ensures { IfOk result (λ fault. fault ≡ invalid_header (header_of block.now) (map (λ b. b.now) before.now) block.now) }
{
    match header_of(block) {
        None => Ok(None),
        Some(header) => {
            if is_invalid(alloc, header, before, block)? {
                Ok(Some(SoapFault::InvalidHeader(header)))
            } else {
                Ok(None)
            }
        }
    }
}

#[tactic(auto, using(crate::proofs::BlockLaws::first_invalid_step))]
pub fn first_invalid(alloc: Global, mine: &[&Tree]) -> Result<Option<SoapFault>, Memory>
    ensures { IfOk result (λ fault. fault ≡ first_invalid_header [] (map (λ b. b.now) mine.now)) }
{
    for index in 0..mine.len() {
        if let Some(fault) = invalid(alloc, &mine[..index], mine[index])? {
            return Ok(Some(fault));
        }
    }
    Ok(None)
}
