//! What holds of every one text, as laws for those who read it.

ghost use Rattle.std.specs.Prelude.{◌≡◌, ℕ, List, [], Some, IsSome, false, true};
ghost use Rattle.std.specs.List.{list_any};
ghost use Rattle.std.specs.Str.{bytes_eq};
ghost use Rattle.ba_tree.specs.Trees.{spaces_named};
ghost use Rattle.ba_tree.specs.declared.trees.Tree.{Tree};
ghost use Rattle.ba_xml_writer.specs.Namespaces.{Declaration, further, text_scope};
ghost use Rattle.ba_xml_writer.specs.OneText.{prefixed};
ghost use Rattle.ba_xml_writer.specs.Resolving.{before_colon, prefix_of, prefixes_differ, space_of};
ghost use Rattle.ba_xml_writer.specs.Writable.{IsWritable};

/// In the one text of a writable tree a name is spelled with the prefix of its namespace, each namespace that the
/// tree names has one, no prefix is declared twice, and each means the namespace that it stands for (Namespaces
/// in XML 1.0, sections 4 and 5).
pub fn prefixes_resolve()
    ensures spelled { (ds : List Declaration) (space rest : List ℕ) → prefixed ds space rest ≡ before_colon (prefix_of ds space) rest }
    ensures differ { (t : Tree) → IsWritable t → prefixes_differ (text_scope (further t)) ≡ true }
    ensures resolved { (t : Tree) (space prefix : List ℕ) → IsWritable t → prefix_of (text_scope (further t)) space ≡ Some prefix → space_of (text_scope (further t)) prefix ≡ Some space }
    ensures named { (t : Tree) (space : List ℕ) → bytes_eq space [] ≡ false → list_any (bytes_eq space) (spaces_named t) ≡ true → IsSome (prefix_of (text_scope (further t)) space) }
{}
