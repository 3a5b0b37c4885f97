//! Whether a tree keeps to the limits of texts: levels, attributes, declarations, bytes. No memory is taken.

ghost use Rattle.std.specs.Prelude.{◌≡◌, ◌↔◌, ℕ, ◌-◌, ◌^◌, min, length, IsTrue};
ghost use Rattle.ba_xml_writer.specs.OneText.{root_text};
ghost use Rattle.ba_xml_writer.specs.Writable.{HasRoom, IsShort, IsWritable};

use crate::elements::put_root;
use crate::pages::Tally;
use crate::row::further_row;
use crate::space::Space;
use ba_tree::Tree;

/// The length of the text, counted as far as a `usize` counts.
fn text_length(further: &[Space], tree: &Tree) -> usize
    ensures { result ≡ min (length (root_text further.now tree.now)) (2 ^ 64 - 1) }
{
    let mut tally = Tally { bytes: 0 };
    match put_root(&mut tally, further, tree) {
        Ok(()) => tally.count(),
        Err(never) => match never {},
    }
}

/// Whether the root has room for its attributes and declarations, and the text is at most 262,144 bytes.
fn text_fits(tree: &Tree) -> bool
    ensures { IsTrue result ↔ (HasRoom tree.now × IsShort tree.now) }
{
    let Ok(row) = further_row(tree) else {
        return false;
    };
    if tree.attributes.len() > 28 - row.len() {
        return false;
    }
    text_length(row.as_slice(), tree) <= 262144
}

/// True exactly where a tree keeps the rules and limits of texts: names, characters and levels are those of texts that
/// are read; attributes stand in rising order and differ, and an element has at most 32; texts are neither empty
/// nor beside another; the root's attributes and its declarations are at most 32, and the text is at most
/// 262,144 bytes. Takes no memory.
#[tactic(auto, using(crate::proofs::Numbers::few_is))]
pub fn writable(tree: &Tree) -> bool
    ensures { IsTrue result ↔ IsWritable tree.now }
{
    tree.has_levels_within(32) && tree.is_fit() && tree.has_attributes_within(32) && text_fits(tree)
}
