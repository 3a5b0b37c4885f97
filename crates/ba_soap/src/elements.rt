//! Envelopes: writing.
ghost use Rattle.std.specs.Prelude.{◌≡◌, ◌≤◌, ℕ, [], ◌∷◌, ◌++◌, Ok, IfOk, length, map, not, take, drop, codes};
ghost use Rattle.std.specs.List.{prefix_len};
ghost use Rattle.std.specs.Ordering.{is_lt};
ghost use Rattle.ba_tree.specs.Trees.{name_cmp};
ghost use Rattle.ba_tree.specs.declared.trees.Content.TheVariants.{Child, Text};
ghost use Rattle.ba_soap_shapes.specs.Endpoints.{bare_element};
ghost use Rattle.ba_soap.specs.Elements.{IsPlainEnvelope, endpoint_block, envelope_element, header_blocks, marked_tree, none_endpoint, notification_blocks, notification_element, one_way_blocks, optional_block, parameter_mark, soap_element, source_blocks, text_block, text_blocks, with_attribute, without_reply};
ghost use Rattle.ba_soap.specs.Envelopes.{envelope_answer, soap11};
ghost use Rattle.ba_soap.specs.declared.headers.Header.TheVariants as header;

use crate::headers::{Dialect, Envelope, Header, ReplyTo, Soap11};
use ba_core::{List, Memory, Octets};
use ba_message::{Epr, PARAMETER_MARK};
use ba_soap_shapes::{and, element, endpoint_element, name, only, text_element, wsa_name};
use ba_tree::{Attribute, Content, Name, Tree};
use std::alloc::Global;

/// The element of an envelope of SOAP 1.1.
pub fn write_envelope(alloc: Global, envelope: &Envelope) -> Result<Tree, Memory>
    requires { envelope.now.reply ≡ ReplyTo.Absent }
    ensures element { IfOk result (λ tree. tree ≡ envelope_element soap11 envelope.now) }
    ensures reads_back { IsPlainEnvelope envelope.now → IfOk result (λ tree. envelope_answer soap11 tree ≡ Ok envelope.now) }
{
    write_as(alloc, &Soap11, envelope)
}

/// The element of an envelope of a version of SOAP. No ReplyTo is written.
pub fn write_as<D: Dialect>(alloc: Global, dialect: &D, envelope: &Envelope) -> Result<Tree, Memory>
    requires { envelope.now.reply ≡ ReplyTo.Absent }
    ensures element { IfOk result (λ tree. tree ≡ envelope_element (D.sheet dialect.now) envelope.now) }
    ensures reads_back { IsPlainEnvelope envelope.now → IfOk result (λ tree. envelope_answer (D.sheet dialect.now) tree ≡ Ok envelope.now) }
{
    envelope_element(alloc, dialect, envelope)
}

/// The element of an envelope of a version of SOAP that says whose it is, and that no reply is wanted: From this endpoint, and
/// ReplyTo none. It is read back as one whose reply is wanted elsewhere.
pub fn write_notification<D: Dialect>(
    alloc: Global,
    dialect: &D,
    source: &Epr,
    envelope: &Envelope,
) -> Result<Tree, Memory>
    requires { envelope.now.reply ≡ ReplyTo.Absent }
    ensures element { IfOk result (λ tree. tree ≡ notification_element (D.sheet dialect.now) source.now envelope.now) }
    ensures reads_back { IsPlainEnvelope envelope.now
        → IfOk result (λ tree. envelope_answer (D.sheet dialect.now) tree ≡ Ok (without_reply envelope.now)) }
{
    notification_element(alloc, dialect, source, envelope)
}

fn envelope_element<D: Dialect>(
    alloc: Global,
    dialect: &D,
    envelope: &Envelope,
) -> Result<Tree, Memory>
    ensures { IfOk result (λ tree. tree ≡ envelope_element (D.sheet dialect.now) envelope.now) }
{
    let blocks = header_blocks(alloc, envelope)?;
    envelope_with(alloc, dialect, blocks, &envelope.body)
}

fn notification_element<D: Dialect>(
    alloc: Global,
    dialect: &D,
    source: &Epr,
    envelope: &Envelope,
) -> Result<Tree, Memory>
    ensures { IfOk result (λ tree. tree ≡ notification_element (D.sheet dialect.now) source.now envelope.now) }
{
    let blocks = notification_blocks(alloc, source, envelope)?;
    envelope_with(alloc, dialect, blocks, &envelope.body)
}

/// The element of an envelope with these header blocks and this body.
fn envelope_with<D: Dialect>(
    alloc: Global,
    dialect: &D,
    blocks: List<Content>,
    body: &Tree,
) -> Result<Tree, Memory>
    ensures { IfOk result (λ tree. tree ≡ bare_element (record { space = (D.sheet dialect.now).space; local = codes "Envelope" })
        (Child (bare_element (record { space = (D.sheet dialect.now).space; local = codes "Header" }) blocks)
        ∷ Child (soap_element (D.sheet dialect.now) (codes "Body") (body.now ∷ [])) ∷ [])) }
{
    let header = soap_element(alloc, dialect, b"Header", blocks)?;
    let body = body_part(alloc, dialect, body)?;
    let parts = only(alloc, Content::Child(header))?;
    let parts = and(parts, Content::Child(body))?;
    soap_element(alloc, dialect, b"Envelope", parts)
}

fn soap_element<D: Dialect>(
    alloc: Global,
    dialect: &D,
    local: &[u8],
    content: List<Content>,
) -> Result<Tree, Memory>
    ensures { IfOk result (λ tree. tree ≡ bare_element (record { space = (D.sheet dialect.now).space; local = local.now }) content) }
{
    let name = name(alloc, dialect.space(), local)?;
    Ok(element(alloc, name, content))
}

fn body_part<D: Dialect>(alloc: Global, dialect: &D, body: &Tree) -> Result<Tree, Memory>
    ensures { IfOk result (λ tree. tree ≡ soap_element (D.sheet dialect.now) (codes "Body") (body.now ∷ [])) }
{
    let content = only(alloc, Content::Child(body.copy(alloc)?))?;
    soap_element(alloc, dialect, b"Body", content)
}

/// The header blocks, and after them the parameters.
#[tactic(auto, using(crate::proofs::WrittenBlocks::before_parameters))]
fn header_blocks(alloc: Global, envelope: &Envelope) -> Result<List<Content>, Memory>
    ensures { IfOk result (λ blocks. blocks ≡ map Child (header_blocks envelope.now)) }
{
    let blocks = text_blocks(alloc, envelope)?;
    and_parameters(alloc, blocks, envelope.parameters.as_slice())
}

/// To, Action and MessageID.
#[tactic(auto, using(crate::proofs::WrittenBlocks::three_in_order))]
fn leading_blocks(alloc: Global, envelope: &Envelope) -> Result<List<Content>, Memory>
    ensures { IfOk result (λ blocks. blocks ≡ map Child (optional_block header.To envelope.now.to
        ++ (text_block header.Action envelope.now.action ∷ optional_block header.MessageID envelope.now.message_id))) }
{
    let blocks = and_optional(alloc, List::new(alloc), Header::To, &envelope.to)?;
    let blocks = and_block(alloc, blocks, Header::Action, envelope.action.as_slice())?;
    and_optional(alloc, blocks, Header::MessageID, &envelope.message_id)
}

#[tactic(auto, using(crate::proofs::WrittenBlocks::one_after))]
fn text_blocks(alloc: Global, envelope: &Envelope) -> Result<List<Content>, Memory>
    ensures { IfOk result (λ blocks. blocks ≡ map Child (text_blocks envelope.now)) }
{
    let blocks = leading_blocks(alloc, envelope)?;
    and_optional(alloc, blocks, Header::RelatesTo, &envelope.relates_to)
}

/// The header blocks of a notification, and after them the parameters.
#[tactic(auto, using(crate::proofs::WrittenBlocks::before_parameters))]
fn notification_blocks(
    alloc: Global,
    source: &Epr,
    envelope: &Envelope,
) -> Result<List<Content>, Memory>
    ensures { IfOk result (λ blocks. blocks ≡ map Child (notification_blocks source.now envelope.now)) }
{
    let blocks = one_way_blocks(alloc, source, envelope)?;
    and_parameters(alloc, blocks, envelope.parameters.as_slice())
}

#[tactic(auto, using(crate::proofs::WrittenBlocks::two_after))]
fn one_way_blocks(alloc: Global, source: &Epr, envelope: &Envelope) -> Result<List<Content>, Memory>
    ensures { IfOk result (λ blocks. blocks ≡ map Child (one_way_blocks source.now envelope.now)) }
{
    let blocks = leading_blocks(alloc, envelope)?;
    let blocks = and_source(alloc, blocks, source)?;
    and_optional(alloc, blocks, Header::RelatesTo, &envelope.relates_to)
}

/// The blocks, and after them From this endpoint and ReplyTo none.
#[tactic(auto, using(crate::proofs::WrittenBlocks::source_after))]
fn and_source(alloc: Global, blocks: List<Content>, source: &Epr) -> Result<List<Content>, Memory>
    ensures { IfOk result (λ all. all ≡ blocks ++ map Child (source_blocks source.now)) }
{
    let blocks = and_endpoint(alloc, blocks, Header::From, source)?;
    let none = none_endpoint(alloc)?;
    and_endpoint(alloc, blocks, Header::ReplyTo, &none)
}

fn none_endpoint(alloc: Global) -> Result<Epr, Memory>
    ensures { IfOk result (λ none. none ≡ none_endpoint) }
{
    let mut address = List::new(alloc);
    address.append(b"http://www.w3.org/2005/08/addressing/none")?;
    Ok(Epr {
        address,
        parameters: List::new(alloc),
    })
}

fn and_endpoint(
    alloc: Global,
    blocks: List<Content>,
    header: Header,
    endpoint: &Epr,
) -> Result<List<Content>, Memory>
    ensures { IfOk result (λ all. all ≡ blocks ++ Child (endpoint_block header endpoint.now) ∷ []) }
{
    let name = wsa_name(alloc, header.name())?;
    let block = endpoint_element(alloc, endpoint, &name)?;
    and(blocks, Content::Child(block))
}

fn and_optional(
    alloc: Global,
    blocks: List<Content>,
    header: Header,
    text: &Option<Octets>,
) -> Result<List<Content>, Memory>
    ensures { IfOk result (λ all. all ≡ blocks ++ map Child (optional_block header text.now)) }
{
    match text {
        None => Ok(blocks),
        Some(text) => and_block(alloc, blocks, header, text.as_slice()),
    }
}

fn and_block(
    alloc: Global,
    blocks: List<Content>,
    header: Header,
    text: &[u8],
) -> Result<List<Content>, Memory>
    ensures { IfOk result (λ all. all ≡ blocks ++ Child (text_block header text.now) ∷ []) }
{
    let name = wsa_name(alloc, header.name())?;
    let block = text_element(alloc, name, text)?;
    and(blocks, Content::Child(block))
}

fn and_parameters(
    alloc: Global,
    blocks: List<Content>,
    parameters: &[Tree],
) -> Result<List<Content>, Memory>
    ensures { IfOk result (λ all. all ≡ blocks ++ map Child (map marked_tree parameters.now)) }
{
    let mut all = blocks;
    for parameter in parameters {
        let block = marked(alloc, parameter)?;
        if all.push(Content::Child(block)).is_err() {
            return Err(Memory);
        }
    }
    Ok(all)
}

/// An equal element that is marked as a parameter.
fn marked(alloc: Global, tree: &Tree) -> Result<Tree, Memory>
    ensures { IfOk result (λ block. block ≡ marked_tree tree.now) }
{
    let Tree {
        name,
        attributes,
        content,
    } = tree.copy(alloc)?;
    Ok(Tree {
        name,
        attributes: with_mark(alloc, attributes.as_slice())?,
        content,
    })
}

fn with_mark(alloc: Global, attributes: &[Attribute]) -> Result<List<Attribute>, Memory>
    ensures { IfOk result (λ all. all ≡ with_attribute parameter_mark attributes.now) }
{
    let mark = parameter_mark(alloc)?;
    let place = place_among(&mark.name, attributes);
    with_attribute_at(alloc, attributes, place, mark)
}

/// Copies of the attributes, with another after the first `place` of them.
fn with_attribute_at(
    alloc: Global,
    attributes: &[Attribute],
    place: usize,
    attribute: Attribute,
) -> Result<List<Attribute>, Memory>
    requires { place ≤ length attributes.now }
    ensures { IfOk result (λ all. all ≡ take place attributes.now ++ attribute ∷ drop place attributes.now) }
{
    let before = and_copies(List::new(alloc), &attributes[..place])?;
    let with = and_attribute(before, attribute)?;
    and_copies(with, &attributes[place..])
}

fn parameter_mark(alloc: Global) -> Result<Attribute, Memory>
    ensures { IfOk result (λ mark. mark ≡ parameter_mark) }
{
    let name = wsa_name(alloc, PARAMETER_MARK)?;
    let mut value = List::new(alloc);
    value.append(b"true")?;
    Ok(Attribute { name, value })
}

/// How many of the attributes stand before the place of one with this name.
fn place_among(name: &Name, attributes: &[Attribute]) -> usize
    ensures place { result ≡ prefix_len (λ a. not (is_lt (name_cmp name.now a.name))) attributes.now }
    ensures within { result ≤ length attributes.now }
{
    let mut place = 0;
    while place < attributes.len() && !name.is_before(&attributes[place].name) {
        place += 1;
    }
    place
}

fn and_attribute(
    attributes: List<Attribute>,
    attribute: Attribute,
) -> Result<List<Attribute>, Memory>
    ensures { IfOk result (λ all. all ≡ attributes ++ attribute ∷ []) }
{
    let mut all = attributes;
    match all.push(attribute) {
        Ok(()) => Ok(all),
        Err(_) => Err(Memory),
    }
}

fn and_copies(attributes: List<Attribute>, others: &[Attribute]) -> Result<List<Attribute>, Memory>
    ensures { IfOk result (λ all. all ≡ attributes ++ others.now) }
{
    let mut all = attributes;
    for other in others {
        let copy = other.copy()?;
        if all.push(copy).is_err() {
            return Err(Memory);
        }
    }
    Ok(all)
}
