//! Laws of what can be encoded, and of what can be written again.
ghost use Rattle.std.specs.Prelude.{◌≤◌, ℕ, IfSome, IsTrue, List, Option};
ghost use Rattle.ba_message.specs.Letters.{IsIdentifier, IsOwnEndpoint, IsPostable, IsReply};
ghost use Rattle.ba_message.specs.declared.endpoints.Epr.{Epr};
ghost use Rattle.ba_message.specs.declared.messages.Letter.{Letter};
ghost use Rattle.ba_message.specs.declared.messages.Message.{Message};
ghost use Rattle.ba_wire_limits.specs.Replies.{reply_route};
ghost use Rattle.ba_tree.specs.Lengths.{tree_length};
ghost use Rattle.ba_tree.specs.Trees.{is_fit_tree};
ghost use Rattle.ba_tree.specs.declared.trees.Tree.{Tree};
ghost use Rattle.ba_soap.specs.Elements.{is_none_or_bare};
ghost use Rattle.ba_soap.specs.Envelopes.{Dialect, soap11};
ghost use Rattle.ba_wire.specs.Envelopes.{CanEncode, CanEncodeLetter, HasEnvelope, envelope_tree, is_known, letter_text, letter_tree};
ghost use Rattle.ba_wire.specs.Meaning.{Means};
ghost use Rattle.ba_wire.specs.declared.meaning.Decoded.{Decoded};
ghost use Rattle.ba_xml_writer.specs.Writable.{HasRoom, IsShort, IsWritable};
ghost use Rattle.ba_wire.specs.Routes.{route_of};
ghost use Rattle.ba_xml_grammar.specs.GrammarTexts.{IsXmlText};

/// How many bytes the coding of a tree takes at most, where its text is surely no longer than a text may be.
pub const SHORT_CODING: u64 = 20_000;

/// Each letter that is postable can be encoded.
pub fn postable_letters_can_be_encoded()
    ensures { (letter : Letter) → IsPostable letter → CanEncode (route_of letter) letter.message }
{}

/// Each letter that is postable can be encoded as one from an endpoint of the node's own, and its text means its route and
/// its message.
pub fn letters_from_own_endpoints_can_be_encoded()
    ensures encoding { (source : Epr) (letter : Letter) → IsOwnEndpoint source → IsPostable letter
        → CanEncodeLetter source (route_of letter) letter.message }
    ensures reads_back { (source : Epr) (letter : Letter) → IsOwnEndpoint source → IsPostable letter
        → IsXmlText (letter_text source (route_of letter) letter.message) (letter_tree source (route_of letter) letter.message)
        × Means soap11 (letter_tree source (route_of letter) letter.message) (record { route = route_of letter; message = letter.message }) }
{}

/// Each reply can be encoded, whether or not it says to which message it replies, if it says so in a text that isn't
/// long. With a long one it has an envelope, which may be past the limits of texts.
pub fn replies_can_be_encoded()
    ensures envelope { (related : Option (List ℕ)) (reply : Message) → IsTrue (is_none_or_bare related) → IsReply reply
        → HasEnvelope (reply_route related) reply }
    ensures encoding { (related : Option (List ℕ)) (reply : Message) → IfSome related IsIdentifier → IsReply reply
        → CanEncode (reply_route related) reply }
{}

/// A message that was read and is known has an envelope with its route. Where the tree that it was read from keeps the
/// rules of trees, as each tree does that is read from a text, this envelope keeps them too. Then the limits of texts
/// alone can keep it from being written again.
pub fn what_was_read_can_be_written()
    ensures envelope { (d : Dialect) (t : Tree) (m : Decoded) → Means d t m → IsTrue (is_known m.message)
        → HasEnvelope m.route m.message }
    ensures rules { (d : Dialect) (t : Tree) (m : Decoded) → Means d t m → IsTrue (is_fit_tree t) → IsTrue (is_known m.message)
        → IsTrue (is_fit_tree (envelope_tree m.route m.message)) }
    ensures encoding { (d : Dialect) (t : Tree) (m : Decoded) → Means d t m → IsTrue (is_known m.message)
        → IsWritable (envelope_tree m.route m.message) → CanEncode m.route m.message }
{}

/// The canonical text of a tree is no longer than a text may be, where its coding is short and its root has room for the
/// declarations of its namespaces.
#[tactic(auto, using(crate::proofs::ShortTexts::short_by_room))]
pub fn short_codings_have_short_texts()
    ensures { (t : Tree) → HasRoom t → tree_length t ≤ SHORT_CODING → IsShort t }
{}
