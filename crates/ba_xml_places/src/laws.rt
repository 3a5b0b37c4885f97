//! What holds of the places at which bytes are refused, as laws over all bytes.
ghost use Rattle.std.specs.Prelude.{◌≡◌, ◌≢◌, ◌≤◌, ◌<◌, ◌+◌, ◌∷◌, ◌++◌, ℕ, List, take, codes, Result, Ok, Err};
ghost use Rattle.ba_tree.specs.declared.trees.Tree.{Tree};
ghost use Rattle.ba_xml_grammar.specs.GrammarTexts.{IsXmlText, CanContinue};
ghost use Rattle.ba_xml_grammar.specs.Places.{IsCause, IsDead, IsLeast, IsAnswerOf};
ghost use Rattle.ba_xml_places.specs.Cuts.{IsTextOrBeginning};
ghost use Rattle.ba_xml_places.specs.Limits.{IsOfLimits};
ghost use Rattle.ba_xml_places.specs.inside.Taken.{IsTaken};
ghost use Rattle.ba_xml_reader.specs.inside.Machine.{xml_answer};
ghost use Rattle.ba_xml_words.specs.declared.faults.Reason.{Reason};
ghost use Rattle.ba_xml_words.specs.declared.faults.XmlFault.{XmlFault};
ghost use Rattle.ba_xml_words.specs.declared.faults.XmlFault.TheVariants as fault;

/// Where the machine refuses none of the bytes, some bytes continue them to a text, whatever its prefixes mean and
/// however large it is.
pub fn what_is_taken_can_be_continued()
    ensures { (bytes : List ℕ) → IsTaken bytes → CanContinue bytes }
{}

/// Bytes that are refused as too few are continued to a text by some others.
pub fn what_ends_too_early_can_be_continued()
    ensures { (bytes : List ℕ) (place : ℕ) → xml_answer bytes ≡ Err (fault.At Reason.Truncated place) → CanContinue bytes }
{}

/// Each refusal but for an early end is one of the table, at its place: `NotUtf8` and `Syntax` where the bytes before it
/// have a continuation and with the byte at it none, `NotUtf8` exactly where no UTF-8 begins so; `Namespace`, `Depth` and
/// `Attributes` where a start tag of a document that begins so is the cause; and `Size` where there are too many bytes.
pub fn every_place_is_of_the_table()
    ensures { (bytes : List ℕ) (reason : Reason) (place : ℕ) → xml_answer bytes ≡ Err (fault.At reason place)
        → reason ≢ Reason.Truncated → IsCause bytes reason place }
{}

/// No dead place is passed over: the place of a refusal, whatever its reason, lies before each of them or at it; and
/// neither a text nor bytes that end too early have any.
pub fn no_dead_place_is_passed()
    ensures refused { (bytes : List ℕ) (reason : Reason) (place : ℕ) → xml_answer bytes ≡ Err (fault.At reason place)
        → (dead : ℕ) → IsDead bytes dead → place ≤ dead }
    ensures early { (bytes : List ℕ) (place : ℕ) → xml_answer bytes ≡ Err (fault.At Reason.Truncated place)
        → (dead : ℕ) → IsDead bytes dead → ⊥ }
    ensures text { (bytes : List ℕ) (tree : Tree) → xml_answer bytes ≡ Ok tree → (dead : ℕ) → IsDead bytes dead → ⊥ }
{}

/// Where bytes are refused for what prefixes mean, or for their depth, attributes or size, they have a continuation up to
/// and with the byte at the place; so each dead place comes later.
pub fn limits_come_before_dead_places()
    ensures alive { (bytes : List ℕ) (reason : Reason) (place : ℕ) → xml_answer bytes ≡ Err (fault.At reason place)
        → IsOfLimits reason → CanContinue (take (place + 1) bytes) }
    ensures later { (bytes : List ℕ) (reason : Reason) (place : ℕ) → xml_answer bytes ≡ Err (fault.At reason place)
        → IsOfLimits reason → (dead : ℕ) → IsDead bytes dead → place < dead }
{}

/// The machine's answer to any bytes is that of the table: the tree of which they are a text; or of all causes the one at the least
/// place, and there the one with the lowest number; or, where nothing is a cause and they are no text, that they end too
/// early.
pub fn answers_are_those_of_the_table()
    ensures { (bytes : List ℕ) → IsAnswerOf bytes (xml_answer bytes) }
{}

/// Any bytes have one answer by the table.
pub fn there_is_one_answer()
    ensures some { (bytes : List ℕ) → (answer : Result Tree XmlFault) × IsAnswerOf bytes answer }
    ensures one { (bytes : List ℕ) (answer other : Result Tree XmlFault) → IsAnswerOf bytes answer → IsAnswerOf bytes other
        → answer ≡ other }
{}

/// The first cause of bytes stays the first whatever follows them.
pub fn the_first_cause_stays()
    ensures { (front more : List ℕ) (reason : Reason) (place : ℕ) → IsCause front reason place → IsLeast front reason place
        → IsCause (front ++ more) reason place × IsLeast (front ++ more) reason place }
{}

/// The first bytes of a text, however many, are a text themselves, or end too early for one.
pub fn a_cut_text_ends_too_early()
    ensures { (bytes : List ℕ) (tree : Tree) (count : ℕ) → IsXmlText bytes tree → IsTextOrBeginning (take count bytes) }
{}

/// Where a line end of two bytes comes before the end of a start tag, that end is a cause at its own byte, and not at the
/// line feed, as in this text.
pub fn a_tag_is_refused_at_its_own_byte()
    ensures answer { IsAnswerOf (codes "<p:a" ++ 13 ∷ 10 ∷ codes "/>") (Err (fault.At Reason.Namespace 6)) }
    ensures line_feed { IsCause (codes "<p:a" ++ 13 ∷ 10 ∷ codes "/>") Reason.Namespace 5 → ⊥ }
{}
