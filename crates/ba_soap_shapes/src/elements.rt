//! What messages read of an element: its texts and its child elements.
ghost use Rattle.std.specs.Prelude.{◌≡◌, ℕ, ◌+◌, ◌++◌, Bool, None, Some, IfOk, MatchOption, length, false};
ghost use Rattle.std.specs.List.{list_all, sum_by};
ghost use Rattle.ba_tree.specs.Characters.{is_white};
ghost use Rattle.ba_tree.specs.Trees.{elements, within};
ghost use Rattle.ba_soap_shapes.specs.Elements.{trim_start, trim_end, number_after, in_u32, own_texts, text_of, trim};

use ba_core::{List, Memory, Octets};
use ba_tree::{Content, Tree};
use std::alloc::Global;

/// The bytes without white space at their beginning.
fn trim_start(bytes: &[u8]) -> &[u8]
    ensures { result.now ≡ trim_start bytes.now }
{
    let mut left = bytes;
    while let [first, rest @ ..] = left {
        if !ba_tree::white_space(*first) {
            return left;
        }
        left = rest;
    }
    left
}

/// The bytes without white space at their end.
#[tactic(auto, using(crate::proofs::ElementLaws::end_white, crate::proofs::ElementLaws::end_kept))]
fn trim_end(bytes: &[u8]) -> &[u8]
    ensures { result.now ≡ trim_end bytes.now }
{
    let mut left = bytes;
    while let Some((last, rest)) = left.split_last() {
        if !ba_tree::white_space(*last) {
            return left;
        }
        left = rest;
    }
    left
}

/// The texts that stand in the element itself, without white space at both ends.
pub fn text_of(alloc: Global, tree: &Tree) -> Result<Octets, Memory>
    ensures { IfOk result (λ text. text ≡ text_of tree.now) }
{
    let texts = own_texts(alloc, tree.content.as_slice())?;
    let mut text = List::new(alloc);
    text.append(trim_end(trim_start(texts.as_slice())))?;
    Ok(text)
}

pub fn own_texts(alloc: Global, content: &[Content]) -> Result<Octets, Memory>
    ensures { IfOk result (λ texts. texts ≡ own_texts content.now) }
{
    let mut texts = List::new(alloc);
    for part in content {
        if let Content::Text(text) = part {
            texts.append(text.as_slice())?;
        }
    }
    Ok(texts)
}

#[cycle(count)]
fn count_in(part: &Content) -> u32
    ensures { result ≡ in_u32 (length (within part.now).elements) }
{
    match part {
        Content::Child(tree) => count(tree),
        Content::Text(_) => 0,
    }
}

#[cycle(count)]
fn count_all(content: &[Content]) -> u32
    ensures { result ≡ in_u32 (sum_by (λ c. length (within c).elements) content.now) }
{
    let mut number: u32 = 0;
    for part in content {
        number = number.saturating_add(count_in(part));
    }
    number
}

/// How many elements there are in the tree, at most the greatest u32.
#[cycle(count)]
#[tactic(auto, using(crate::proofs::ElementLaws::count_in_tree))]
pub fn count(tree: &Tree) -> u32
    ensures { result ≡ in_u32 (length (elements tree.now)) }
{
    count_all(tree.content.as_slice()).saturating_add(1)
}
