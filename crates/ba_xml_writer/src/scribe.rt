//! The parts of the one text, put on a page.

ghost use Rattle.std.specs.Prelude.{◌≡◌, ℕ, ◌+◌, ◌<◌, ◌≤◌, length, List, [], ◌∷◌, ◌++◌, codes, decimal, OnOk, IfOk, IfSome, IfNone, MatchOption};
ghost use Rattle.std.specs.Str.{bytes_eq};
ghost use Rattle.ba_xml_writer.specs.Escapes.{escapes_of, waiting};
ghost use Rattle.ba_xml_writer.specs.Namespaces.{Declaration, declaration, soap_space, wsa_space, wscoor_space, wsba_space, xml_space, fixed, numbered, declared, text_scope, xml};
ghost use Rattle.ba_xml_writer.specs.OneText.{spelled, escaped, prefixed, qualified, valued, declaration_texts, attributes, ending, element, item, items, tree_text, root_text, is_empty, value_escapes};

use crate::pages::Page;
use crate::space::Space;
use ba_tree::{Attribute, Name, SOAP_SPACE, WSA_SPACE, WSBA_SPACE, WSCOOR_SPACE, XML_SPACE};
use itoa::Buffer;

/// Where characters stand: between tags, or in the value of an attribute or a declaration.
#[derive(Clone, Copy, Debug, PartialEq, Eq)]
pub enum Place {
    Text,
    Value,
}

fn spelling(place: Place, byte: u8) -> Option<&'static [u8]>
    ensures { MatchOption result ((rest : List ℕ) → spelled (escapes_of place) byte rest ≡ byte ∷ rest) (λ s. (rest : List ℕ) → spelled (escapes_of place) byte rest ≡ s.now ++ rest) }
{
    match (byte, place) {
        (b'&', _) => Some(b"&amp;".as_slice()),
        (b'<', _) => Some(b"&lt;".as_slice()),
        (b'>', _) => Some(b"&gt;".as_slice()),
        (b'\r', _) => Some(b"&#13;".as_slice()),
        (b'"', Place::Value) => Some(b"&quot;".as_slice()),
        (b'\t', Place::Value) => Some(b"&#9;".as_slice()),
        (b'\n', Place::Value) => Some(b"&#10;".as_slice()),
        _ => None,
    }
}

/// Puts what comes before the byte at `at` and its spelling, unless it is written as itself. Gives the place from which nothing is
/// put yet.
#[tactic(auto, using(crate::proofs::Escaping::plain_step, crate::proofs::Escaping::escape_step))]
fn put_special<P: Page>(
    page: &mut P,
    place: Place,
    bytes: &[u8],
    start: usize,
    at: usize,
) -> Result<usize, P::Refusal>
    requires there { at < length bytes.now }
    requires before { start ≤ at }
    ensures next { IfOk result (λ next. next ≤ at + 1) }
    ensures put { IfOk result (λ next. (rest : List ℕ) → P.after page.new (waiting place bytes.now next (at + 1) rest) ≡ P.after page.old (waiting place bytes.now start at rest)) }
{
    let Some(spelling) = spelling(place, bytes[at]) else {
        return Ok(start);
    };
    page.put(&bytes[start..at])?;
    page.put(spelling)?;
    Ok(at + 1)
}

#[tactic(auto, using(crate::proofs::Escaping::last_run))]
pub fn put_escaped<P: Page>(page: &mut P, place: Place, bytes: &[u8]) -> Result<(), P::Refusal>
    ensures { OnOk result ((rest : List ℕ) → P.after page.new rest ≡ P.after page.old (escaped (escapes_of place) bytes.now rest)) }
{
    let mut start = 0;
    for at in 0..bytes.len() {
        start = put_special(page, place, bytes, start, at)?;
    }
    page.put(&bytes[start..])?;
    Ok(())
}

pub fn is(bytes: &[u8], known: &[u8]) -> bool
    ensures { result ≡ bytes_eq bytes.now known.now }
{
    bytes == known
}

/// The prefix that has this namespace in every text.
#[tactic(auto, unfolding(crate::specs::Namespaces::xml_space, crate::specs::Namespaces::soap_space, crate::specs::Namespaces::wsa_space, crate::specs::Namespaces::wscoor_space, crate::specs::Namespaces::wsba_space))]
fn fixed_prefix(space: &[u8]) -> Option<&'static [u8]>
    ensures { (more : List Declaration) (rest : List ℕ) → MatchOption result (prefixed (xml ∷ fixed ++ more) space.now rest ≡ prefixed more space.now rest) (λ p. prefixed (xml ∷ fixed ++ more) space.now rest ≡ p.now ++ 58 ∷ rest) }
{
    if is(space, XML_SPACE) {
        Some(b"xml".as_slice())
    } else if is(space, SOAP_SPACE) {
        Some(b"soap".as_slice())
    } else if is(space, WSA_SPACE) {
        Some(b"wsa".as_slice())
    } else if is(space, WSCOOR_SPACE) {
        Some(b"wscoor".as_slice())
    } else if is(space, WSBA_SPACE) {
        Some(b"wsba".as_slice())
    } else {
        None
    }
}

fn put_number<P: Page>(page: &mut P, number: usize) -> Result<(), P::Refusal>
    ensures { OnOk result ((rest : List ℕ) → P.after page.new rest ≡ P.after page.old (codes "n" ++ decimal number ++ rest)) }
{
    page.put(b"n")?;
    page.put(Buffer::new().format(number).as_bytes())
}

/// The place of a namespace among the further ones.
#[tactic(auto, using(crate::proofs::Prefixes::look))]
fn place_of(further: &[Space], space: &[u8]) -> Option<usize>
    ensures found { (rest : List ℕ) → IfSome result (λ i. prefixed (numbered 1 further.now) space.now rest ≡ codes "n" ++ decimal (i + 1) ++ (codes ":" ++ rest)) }
    ensures within { IfSome result (λ i. i < length further.now) }
    ensures none { (rest : List ℕ) → IfNone result (prefixed (numbered 1 further.now) space.now rest ≡ rest) }
{
    for (i, known) in further.iter().enumerate() {
        if is(space, known.as_slice()) {
            return Some(i);
        }
    }
    None
}

/// Puts the prefix of a namespace and a colon.
fn put_prefix<P: Page>(page: &mut P, further: &[Space], space: &[u8]) -> Result<(), P::Refusal>
    ensures { OnOk result ((rest : List ℕ) → P.after page.new rest ≡ P.after page.old (prefixed (text_scope further.now) space.now rest)) }
{
    if let Some(prefix) = fixed_prefix(space) {
        page.put(prefix)?;
        return page.put(b":");
    }
    let Some(place) = place_of(further, space) else {
        return Ok(());
    };
    put_number(page, place + 1)?;
    page.put(b":")
}

pub fn put_name<P: Page>(page: &mut P, further: &[Space], name: &Name) -> Result<(), P::Refusal>
    ensures { OnOk result ((rest : List ℕ) → P.after page.new rest ≡ P.after page.old (qualified (text_scope further.now) name.now rest)) }
{
    put_prefix(page, further, name.space.as_slice())?;
    page.put(name.local.as_slice())
}

/// Puts an equals sign and a value in its quotes.
fn put_value<P: Page>(page: &mut P, value: &[u8]) -> Result<(), P::Refusal>
    ensures { OnOk result ((rest : List ℕ) → P.after page.new rest ≡ P.after page.old (valued value.now rest)) }
{
    page.put(b"=\"")?;
    put_escaped(page, Place::Value, value)?;
    page.put(b"\"")
}

pub fn put_attributes<P: Page>(
    page: &mut P,
    further: &[Space],
    list: &[Attribute],
) -> Result<(), P::Refusal>
    ensures { OnOk result ((rest : List ℕ) → P.after page.new rest ≡ P.after page.old (attributes (text_scope further.now) list.now rest)) }
{
    for attribute in list {
        page.put(b" ")?;
        put_name(page, further, &attribute.name)?;
        put_value(page, attribute.value.as_slice())?;
    }
    Ok(())
}

/// Puts the declaration of a prefix.
fn put_declaration<P: Page>(page: &mut P, prefix: &[u8], space: &[u8]) -> Result<(), P::Refusal>
    ensures { OnOk result ((more : List Declaration) (rest : List ℕ) → P.after page.new (declaration_texts more rest) ≡ P.after page.old (declaration_texts (declaration prefix.now space.now ∷ more) rest)) }
{
    page.put(b" xmlns:")?;
    page.put(prefix)?;
    put_value(page, space)
}

fn put_fixed<P: Page>(page: &mut P) -> Result<(), P::Refusal>
    ensures { OnOk result ((more : List Declaration) (rest : List ℕ) → P.after page.new (declaration_texts more rest) ≡ P.after page.old (declaration_texts (fixed ++ more) rest)) }
{
    put_declaration(page, b"soap", SOAP_SPACE)?;
    put_declaration(page, b"wsa", WSA_SPACE)?;
    put_declaration(page, b"wscoor", WSCOOR_SPACE)?;
    put_declaration(page, b"wsba", WSBA_SPACE)?;
    Ok(())
}

fn put_numbered<P: Page>(page: &mut P, number: usize, space: &[u8]) -> Result<(), P::Refusal>
    ensures { OnOk result ((more : List Declaration) (rest : List ℕ) → P.after page.new (declaration_texts more rest) ≡ P.after page.old (declaration_texts (declaration (codes "n" ++ decimal number) space.now ∷ more) rest)) }
{
    page.put(b" xmlns:")?;
    put_number(page, number)?;
    put_value(page, space)
}

fn put_further<P: Page>(page: &mut P, further: &[Space]) -> Result<(), P::Refusal>
    ensures { OnOk result ((rest : List ℕ) → P.after page.new rest ≡ P.after page.old (declaration_texts (numbered 1 further.now) rest)) }
{
    for (i, space) in further.iter().enumerate() {
        put_numbered(page, i + 1, space.as_slice())?;
    }
    Ok(())
}

pub fn put_declarations<P: Page>(page: &mut P, further: &[Space]) -> Result<(), P::Refusal>
    ensures { OnOk result ((rest : List ℕ) → P.after page.new rest ≡ P.after page.old (declaration_texts (declared further.now) rest)) }
{
    put_fixed(page)?;
    put_further(page, further)
}
