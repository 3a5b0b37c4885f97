//! Laws of what envelopes mean.
ghost use Rattle.std.specs.Prelude.{IsTrue};
ghost use Rattle.ba_message.specs.declared.endpoints.Epr.{Epr};
ghost use Rattle.ba_message.specs.declared.messages.Message.{Message};
ghost use Rattle.ba_soap.specs.Envelopes.{soap11};
ghost use Rattle.ba_wire.specs.Envelopes.{CanEncode, CanEncodeLetter, HasEnvelope, TimesFit, envelope_text, envelope_tree, is_numbered, letter_text, letter_tree};
ghost use Rattle.ba_wire.specs.Meaning.{Means, NeverMemory};
ghost use Rattle.ba_wire.specs.declared.routes.Route.{Route};
ghost use Rattle.ba_xml_grammar.specs.GrammarTexts.{IsXmlText};

/// No tree is refused for want of memory: that says nothing of the tree.
pub fn memory_refuses_no_tree()
    ensures { NeverMemory }
{}

/// The envelope of a route and a message, and its canonical text, mean that route and that message, where who asks for a
/// reply gives a MessageID.
pub fn messages_are_read_back()
    ensures tree { (r : Route) (m : Message) → HasEnvelope r m → IsTrue (is_numbered r m) → TimesFit m
        → Means soap11 (envelope_tree r m) (record { route = r; message = m }) }
    ensures text { (r : Route) (m : Message) → CanEncode r m → IsTrue (is_numbered r m) → TimesFit m
        → IsXmlText (envelope_text r m) (envelope_tree r m) × Means soap11 (envelope_tree r m) (record { route = r; message = m }) }
{}

/// A letter, and its canonical text, mean its route and its message too, from whatever endpoint it is.
pub fn letters_are_read_back()
    ensures tree { (source : Epr) (r : Route) (m : Message) → HasEnvelope r m → IsTrue (is_numbered r m) → TimesFit m
        → Means soap11 (letter_tree source r m) (record { route = r; message = m }) }
    ensures text { (source : Epr) (r : Route) (m : Message) → CanEncodeLetter source r m → IsTrue (is_numbered r m) → TimesFit m
        → IsXmlText (letter_text source r m) (letter_tree source r m)
        × Means soap11 (letter_tree source r m) (record { route = r; message = m }) }
{}
