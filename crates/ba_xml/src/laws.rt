//! What holds of reading and writing together.

ghost use Rattle.std.specs.Prelude.{◌≡◌, ℕ, List, Result, Ok};
ghost use Rattle.ba_tree.specs.declared.trees.Tree.{Tree};
ghost use Rattle.ba_xml_grammar.specs.GrammarTexts.{IsXmlText};
ghost use Rattle.ba_xml_grammar.specs.Places.{IsAnswerOf};
ghost use Rattle.ba_xml_words.specs.declared.faults.XmlFault.{XmlFault};
ghost use Rattle.ba_xml_writer.specs.OneText.{one_text};
ghost use Rattle.ba_xml_writer.specs.Writable.{HasRoom, IsShort, IsWritable};

/// The one text of a writable tree is a text of that tree, so it is read back as it.
pub fn what_is_written_is_read_back()
    ensures text { (t : Tree) → IsWritable t → IsXmlText (one_text t) t }
    ensures read { (t : Tree) → IsWritable t → (answer : Result Tree XmlFault) → IsAnswerOf (one_text t) answer → answer ≡ Ok t }
{}

/// A tree that was read can be written again, unless the root has no room for the declarations of its namespaces, or the
/// canonical text is too long.
pub fn what_is_read_may_be_written()
    ensures { (bytes : List ℕ) (t : Tree) → IsXmlText bytes t → HasRoom t → IsShort t → IsWritable t }
{}
