//! What holds of every answer of the machine, as laws over all bytes.
ghost use Rattle.std.specs.Prelude.{◌≡◌, ◌≢◌, ◌≤◌, ◌+◌, ◌++◌, ℕ, List, length, take, Ok, Err, IsTrue, codes};
ghost use Rattle.ba_tree.specs.Trees.{is_fit_tree};
ghost use Rattle.ba_tree.specs.declared.trees.Tree.{Tree};
ghost use Rattle.ba_xml_grammar.specs.GrammarTexts.{IsXmlText, CanContinue};
ghost use Rattle.ba_xml_reader.specs.Fitness.{IsWithinLimits};
ghost use Rattle.ba_xml_reader.specs.inside.Machine.{xml_answer};
ghost use Rattle.ba_xml_words.specs.declared.faults.Reason.{Reason};
ghost use Rattle.ba_xml_words.specs.declared.faults.XmlFault.{XmlFault};
ghost use Rattle.ba_xml_words.specs.declared.faults.XmlFault.TheVariants as fault;

/// Bytes that are refused for another reason than that they end too early are refused so whatever follows them.
pub fn refusals_stay()
    ensures { (front more : List ℕ) (reason : Reason) (place : ℕ) → xml_answer front ≡ Err (fault.At reason place)
        → reason ≢ Reason.Truncated → xml_answer (front ++ more) ≡ Err (fault.At reason place) }
{}

/// No text is longer than the limit, and no place lies behind the bytes.
pub fn places_lie_within()
    ensures text { (bytes : List ℕ) (tree : Tree) → xml_answer bytes ≡ Ok tree → length bytes ≤ 262144 }
    ensures place { (bytes : List ℕ) (reason : Reason) (place : ℕ) → xml_answer bytes ≡ Err (fault.At reason place)
        → place ≤ length bytes }
{}

/// Every text of XML in the part that this product takes is read, with its tree; it has one tree, and what is
/// refused is none.
pub fn every_text_is_read()
    ensures read { (bytes : List ℕ) (tree : Tree) → IsXmlText bytes tree → xml_answer bytes ≡ Ok tree }
    ensures one { (bytes : List ℕ) (tree other : Tree) → IsXmlText bytes tree → IsXmlText bytes other → tree ≡ other }
    ensures none { (bytes : List ℕ) (tree : Tree) (why : XmlFault) → xml_answer bytes ≡ Err why → IsXmlText bytes tree → ⊥ }
    // There are such texts, as this one.
    ensures some { (tree : Tree) × IsXmlText (codes "<a b='1&#50;'>]&gt;<!--c--><![CDATA[<]]></a>") tree }
{}

/// What is read is a text of XML in the part that this product takes, and the tree is its tree.
pub fn what_is_read_is_a_text()
    ensures { (bytes : List ℕ) (tree : Tree) → xml_answer bytes ≡ Ok tree → IsXmlText bytes tree }
{}

/// Where bytes are refused because they aren't UTF-8 or break the productions, no bytes continue the front up to
/// and with the byte at the place to a text, whatever its prefixes mean and however large it is.
pub fn refused_fronts_are_dead()
    ensures utf8 { (bytes : List ℕ) (place : ℕ) → xml_answer bytes ≡ Err (fault.At Reason.NotUtf8 place)
        → CanContinue (take (place + 1) bytes) → ⊥ }
    ensures syntax { (bytes : List ℕ) (place : ℕ) → xml_answer bytes ≡ Err (fault.At Reason.Syntax place)
        → CanContinue (take (place + 1) bytes) → ⊥ }
{}

/// A tree that is read has at most 32 levels, and at most 32 attributes in an element.
pub fn what_is_read_keeps_the_limits()
    ensures { (bytes : List ℕ) (tree : Tree) → IsXmlText bytes tree → IsWithinLimits tree }
{}

/// A tree that is read keeps the rules of trees: lawful names, legal characters, attributes in rising order, and texts
/// that aren't empty and stand apart.
pub fn what_is_read_is_fit()
    ensures { (bytes : List ℕ) (tree : Tree) → IsXmlText bytes tree → IsTrue (is_fit_tree tree) }
{}
