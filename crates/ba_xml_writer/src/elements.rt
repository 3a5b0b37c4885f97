//! Elements and their content, put on a page.

ghost use Rattle.std.specs.Prelude.{◌≡◌, ℕ, List, [], OnOk};
ghost use Rattle.ba_xml_writer.specs.Namespaces.{declared, text_scope};
ghost use Rattle.ba_xml_writer.specs.OneText.{ending, attributes, item, items, tree_text, tree_rest, root_text, is_empty};

use crate::pages::Page;
use crate::scribe::{Place, put_attributes, put_declarations, put_escaped, put_name};
use crate::space::Space;
use ba_tree::{Content, Tree};

fn has_none(list: &[Content]) -> bool
    ensures { result ≡ is_empty list.now }
{
    list.is_empty()
}

#[cycle(elements)]
fn put_item<P: Page>(page: &mut P, further: &[Space], content: &Content) -> Result<(), P::Refusal>
    ensures { OnOk result ((rest : List ℕ) → P.after page.new rest ≡ P.after page.old (item (text_scope further.now) content.now rest)) }
{
    match content {
        Content::Text(text) => put_escaped(page, Place::Text, text.as_slice()),
        Content::Child(tree) => {
            put_element(page, further, tree)?;
            Ok(())
        }
    }
}

#[cycle(elements)]
fn put_items<P: Page>(page: &mut P, further: &[Space], list: &[Content]) -> Result<(), P::Refusal>
    ensures { OnOk result ((rest : List ℕ) → P.after page.new rest ≡ P.after page.old (items (text_scope further.now) list.now rest)) }
{
    for content in list {
        put_item(page, further, content)?;
    }
    Ok(())
}

/// Puts attributes, content and end of an element whose tag is begun.
#[cycle(elements)]
fn put_rest<P: Page>(page: &mut P, further: &[Space], tree: &Tree) -> Result<(), P::Refusal>
    ensures { OnOk result ((rest : List ℕ) → P.after page.new rest ≡ P.after page.old (tree_rest (text_scope further.now) tree.now rest)) }
{
    put_attributes(page, further, tree.attributes.as_slice())?;
    if has_none(tree.content.as_slice()) {
        return page.put(b"/>");
    }
    page.put(b">")?;
    put_items(page, further, tree.content.as_slice())?;
    page.put(b"</")?;
    put_name(page, further, &tree.name)?;
    page.put(b">")
}

#[cycle(elements)]
fn put_element<P: Page>(page: &mut P, further: &[Space], tree: &Tree) -> Result<(), P::Refusal>
    ensures { OnOk result ((rest : List ℕ) → P.after page.new rest ≡ P.after page.old (tree_text (text_scope further.now) [] tree.now rest)) }
{
    page.put(b"<")?;
    put_name(page, further, &tree.name)?;
    put_rest(page, further, tree)
}

/// Puts a whole text: the root, whose tag declares all prefixes.
pub fn put_root<P: Page>(page: &mut P, further: &[Space], tree: &Tree) -> Result<(), P::Refusal>
    ensures { OnOk result (P.after page.new [] ≡ P.after page.old (root_text further.now tree.now)) }
{
    page.put(b"<")?;
    put_name(page, further, &tree.name)?;
    put_declarations(page, further)?;
    put_rest(page, further, tree)
}
