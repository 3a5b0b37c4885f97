//! Envelopes: reading.
ghost use Rattle.std.specs.Prelude.{◌≡◌, ◌++◌, [], ◌∷◌, ℕ, Bool, None, Some, Option, IfOk, MatchOption, length, map, filter, find, not, codes};
ghost use Rattle.std.specs.List.{list_any, position};
ghost use Rattle.ba_tree.specs.declared.trees.Tree.{Tree};
ghost use Rattle.ba_soap_shapes.specs.Elements.{children, in_u32, text_of};
ghost use Rattle.ba_soap_shapes.specs.Endpoints.{child_at, text_in};
ghost use Rattle.ba_soap.specs.Envelopes.{IsSoapAnswer, block_fault, answer_by_body, answer_by_parts, blocks_refusal, envelope_answer, envelope_by_blocks, first_invalid_header, has_bad_flag, header_text, is_header, is_looked_at, is_not_understood, is_part, action_fault, option_text, text_or_none, envelope_said, refusal_by, is_reply_relation, reply_of, soap11, answer_unless_refused};
ghost use Rattle.ba_soap.specs.declared.headers.Header.TheVariants as header;

use crate::headers::{
    Dialect, Envelope, Header, ReplyTo, Soap11, SoapFault, children, find_header, find_related,
    first_invalid, first_not_understood, has_any_bad_flag, is_called, looked_at, parameters,
};
use ba_core::{Memory, Octets};
use ba_soap_shapes::{ADDRESS, text_at, text_of};
use ba_tree::Tree;
use std::alloc::Global;

/// Reads an envelope of SOAP 1.1.
pub fn read_envelope(alloc: Global, tree: &Tree) -> Result<Envelope, SoapFault>
    ensures { IsSoapAnswer (envelope_answer soap11 tree.now) result }
{
    read_as(alloc, &Soap11, tree)
}

/// Reads an envelope of a version of SOAP.
pub fn read_as<D: Dialect>(alloc: Global, dialect: &D, tree: &Tree) -> Result<Envelope, SoapFault>
    ensures { IsSoapAnswer (envelope_answer (D.sheet dialect.now) tree.now) result }
{
    if tree.name.local.as_slice() != b"Envelope".as_slice() {
        return Err(SoapFault::Shape);
    }
    if tree.name.space.as_slice() != dialect.space() {
        return Err(SoapFault::VersionMismatch);
    }
    let parts = children(alloc, tree.content.as_slice())?;
    read_parts(alloc, dialect, parts.as_slice())
}

fn is_part<D: Dialect>(dialect: &D, local: &[u8], tree: &Tree) -> bool
    ensures { result ≡ is_part (D.sheet dialect.now) local.now tree.now }
{
    is_called(&tree.name, dialect.space(), local)
}

fn read_parts<D: Dialect>(
    alloc: Global,
    dialect: &D,
    parts: &[&Tree],
) -> Result<Envelope, SoapFault>
    ensures { IsSoapAnswer (answer_by_parts (D.sheet dialect.now) (map (λ part. part.now) parts.now)) result }
{
    match parts {
        [] => Err(SoapFault::NoBody),
        [only] => read_only(alloc, dialect, *only),
        [first, second] => read_both(alloc, dialect, *first, *second),
        [_, _, _, ..] => Err(SoapFault::Shape),
    }
}

fn read_only<D: Dialect>(alloc: Global, dialect: &D, only: &Tree) -> Result<Envelope, SoapFault>
    ensures { IsSoapAnswer (answer_by_parts (D.sheet dialect.now) (only.now ∷ [])) result }
{
    if is_part(dialect, b"Body".as_slice(), only) {
        let elements = children(alloc, only.content.as_slice())?;
        return read_body(alloc, dialect, [].as_slice(), elements.as_slice());
    }
    if is_part(dialect, b"Header".as_slice(), only) {
        return Err(SoapFault::NoBody);
    }
    Err(SoapFault::Shape)
}

fn read_both<D: Dialect>(
    alloc: Global,
    dialect: &D,
    header: &Tree,
    body: &Tree,
) -> Result<Envelope, SoapFault>
    ensures { IsSoapAnswer (answer_by_parts (D.sheet dialect.now) (header.now ∷ body.now ∷ [])) result }
{
    if is_part(dialect, b"Header".as_slice(), header)
        && is_part(dialect, b"Body".as_slice(), body)
    {
        read_framed(alloc, dialect, header, body)
    } else {
        Err(SoapFault::Shape)
    }
}

fn read_framed<D: Dialect>(
    alloc: Global,
    dialect: &D,
    header: &Tree,
    body: &Tree,
) -> Result<Envelope, SoapFault>
    ensures { IsSoapAnswer (answer_by_body (D.sheet dialect.now) (children header.now.content) (children body.now.content)) result }
{
    let blocks = children(alloc, header.content.as_slice())?;
    read_with(alloc, dialect, blocks.as_slice(), body)
}

fn read_with<D: Dialect>(
    alloc: Global,
    dialect: &D,
    blocks: &[&Tree],
    body: &Tree,
) -> Result<Envelope, SoapFault>
    ensures { IsSoapAnswer (answer_by_body (D.sheet dialect.now) (map (λ b. b.now) blocks.now) (children body.now.content)) result }
{
    let elements = children(alloc, body.content.as_slice())?;
    read_body(alloc, dialect, blocks, elements.as_slice())
}

fn read_body<D: Dialect>(
    alloc: Global,
    dialect: &D,
    blocks: &[&Tree],
    elements: &[&Tree],
) -> Result<Envelope, SoapFault>
    ensures { IsSoapAnswer (answer_by_body (D.sheet dialect.now) (map (λ b. b.now) blocks.now) (map (λ e. e.now) elements.now)) result }
{
    match elements {
        [] => Err(SoapFault::Shape),
        [body] => read_blocks(alloc, dialect, blocks, *body),
        [_, _, ..] => Err(SoapFault::Shape),
    }
}

fn read_blocks<D: Dialect>(
    alloc: Global,
    dialect: &D,
    blocks: &[&Tree],
    body: &Tree,
) -> Result<Envelope, SoapFault>
    ensures { IsSoapAnswer (answer_unless_refused (blocks_refusal (D.sheet dialect.now) (map (λ b. b.now) blocks.now)) (envelope_by_blocks (D.sheet dialect.now) (map (λ b. b.now) blocks.now) body.now)) result }
{
    let mine = looked_at(alloc, dialect, blocks)?;
    match refusal(alloc, dialect, blocks, mine.as_slice())? {
        Some(fault) => Err(fault),
        None => Ok(said(alloc, blocks, mine.as_slice(), body)?),
    }
}

/// The first refusal of the header blocks.
fn refusal<D: Dialect>(
    alloc: Global,
    dialect: &D,
    blocks: &[&Tree],
    mine: &[&Tree],
) -> Result<Option<SoapFault>, Memory>
    ensures { IfOk result (λ fault. fault ≡ refusal_by (D.sheet dialect.now) (map (λ b. b.now) blocks.now) (map (λ b. b.now) mine.now)) }
{
    if has_any_bad_flag(dialect, blocks) {
        return Ok(Some(SoapFault::Shape));
    }
    if let Some(index) = first_not_understood(dialect, blocks) {
        return Ok(Some(SoapFault::MustUnderstand(number_of(index))));
    }
    if let Some(fault) = first_invalid(alloc, mine)? {
        return Ok(Some(fault));
    }
    Ok(match find_header(Header::Action, mine) {
        None => Some(SoapFault::HeaderRequired(Header::Action)),
        Some(_) => None,
    })
}

fn number_of(index: usize) -> u32
    ensures { result ≡ in_u32 index }
{
    u32::try_from(index).unwrap_or(u32::MAX)
}

/// What the blocks and the body say.
fn said(alloc: Global, blocks: &[&Tree], mine: &[&Tree], body: &Tree) -> Result<Envelope, Memory>
    ensures { IfOk result (λ envelope. envelope ≡ envelope_said (map (λ b. b.now) blocks.now) (map (λ b. b.now) mine.now) body.now) }
{
    let to = header_text(alloc, find_header(Header::To, mine))?;
    let action = action(alloc, mine)?;
    let message_id = header_text(alloc, find_header(Header::MessageID, mine))?;
    let relates_to = header_text(alloc, find_related(mine))?;
    let reply = reply_to(alloc, find_header(Header::ReplyTo, mine))?;
    let parameters = parameters(alloc, blocks)?;
    let body = body.copy(alloc)?;
    Ok(Envelope {
        to,
        action,
        message_id,
        relates_to,
        reply,
        parameters,
        body,
    })
}

fn action(alloc: Global, mine: &[&Tree]) -> Result<Octets, Memory>
    ensures { IfOk result (λ text. text ≡ text_or_none (header_text header.Action (map (λ b. b.now) mine.now))) }
{
    match find_header(Header::Action, mine) {
        None => Ok(ba_core::List::new(alloc)),
        Some(block) => text_of(alloc, block),
    }
}

fn header_text(alloc: Global, block: Option<&Tree>) -> Result<Option<Octets>, Memory>
    ensures { MatchOption block.entry (IfOk result (λ text. text ≡ None)) (λ b. IfOk result (λ text. text ≡ Some (text_of b.now))) }
{
    match block {
        None => Ok(None),
        Some(block) => Ok(Some(text_of(alloc, block)?)),
    }
}

fn reply_to(alloc: Global, block: Option<&Tree>) -> Result<ReplyTo, Memory>
    ensures { MatchOption block.entry (IfOk result (λ reply. reply ≡ reply_of None)) (λ b. IfOk result (λ reply. reply ≡ reply_of (Some b.now))) }
{
    match block {
        None => Ok(ReplyTo::Absent),
        Some(block) => {
            let address = text_at(alloc, &ADDRESS, block)?;
            let anonymous = b"http://www.w3.org/2005/08/addressing/anonymous".as_slice();
            Ok(if address.as_slice() == anonymous {
                ReplyTo::Anonymous
            } else {
                ReplyTo::Elsewhere
            })
        }
    }
}
