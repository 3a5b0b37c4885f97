//! The writer itself.

ghost use Rattle.std.specs.Prelude.{◌≡◌, ◌++◌, OnOk, OnErr, IfOk};
ghost use Rattle.ba_xml_writer.specs.OneText.{one_text};

use crate::elements::put_root;
use crate::spaces::further_spaces;
use ba_core::{List, Memory, Octets};
use ba_tree::Tree;
use std::alloc::Global;

/// Appends the one text of a tree: one element, with no declaration before it and no white space added. The root
/// declares the prefixes of SOAP, WS-Addressing, WS-Coordination and WS-BusinessActivity, and then n1, n2 and so
/// on for the other namespaces in order of first appearance. After `Memory`
/// `out` is as before. It goes as deep as the tree: a caller looks first whether the tree is `writable`.
pub fn write(alloc: Global, tree: &Tree, out: &mut Octets) -> Result<(), Memory>
    ensures ok { OnOk result (out.new ≡ out.old ++ one_text tree.now) }
    ensures err { OnErr result (out.new ≡ out.old) }
{
    let text = text_of(alloc, tree)?;
    out.append(text.as_slice())
}

fn text_of(alloc: Global, tree: &Tree) -> Result<Octets, Memory>
    ensures { IfOk result (λ text. text ≡ one_text tree.now) }
{
    let spaces = further_spaces(alloc, tree)?;
    let mut text = List::new(alloc);
    put_root(&mut text, spaces.as_slice(), tree)?;
    Ok(text)
}
