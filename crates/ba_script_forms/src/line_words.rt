//! Words of any line of a script, one after another.
ghost use Rattle.std.specs.Prelude.{◌≡◌, ◌≢◌, ◌∷◌, [], ◌++◌, ℕ, List, IfSome, IfNone, Option, None, false};
ghost use Rattle.ba_script_forms.specs.Grammar.{left_after, opening_forms, pair_forms, some_ends, words_of};
ghost use Rattle.ba_script_forms.specs.Readings.{MayStand, Says};
ghost use Rattle.ba_script_forms.specs.declared.line_words.OpeningWords.{OpeningWords};
ghost use Rattle.ba_script_forms.specs.declared.line_words.PairWords.{PairWords};
ghost use Rattle.ba_script_forms.specs.declared.readings.Form.{Form};
ghost use Rattle.ba_script_forms.specs.inside.LineWords.{BeginsOpening, BeginsPair, OpeningFits, PairFits, WordsFit, WordsMayStand, forms_left, opening_left, opening_so_far, pair_left, pair_so_far, so_far};

use crate::readings::{Form, Reading};
use crate::words::{act_in, message_in, nodes_in, protocol_in, side_in, verdict_in};
use crate::world_words::WorldWords;
use ba_core::Side;
use ba_pair::PairEvent;

/// What the first words of a line that chooses the form say.
#[derive(Clone, Copy, Debug, PartialEq, Eq)]
pub enum OpeningWords {
    Pair,
    Nodes,
    /// A form that wants no word more.
    Whole(Form),
}

/// What the first words of a pair's event say.
#[derive(Clone, Copy, Debug, PartialEq, Eq)]
pub enum PairWords {
    Act,
    Tick,
    Choose,
    Deliver,
    /// An event that wants no word more.
    Whole(PairEvent),
}

/// What the first words of a line say.
#[derive(Clone, Copy, Debug, PartialEq, Eq)]
pub enum LineWords {
    /// Nothing yet. The lines before chose this form; None where they say nothing.
    Nothing(Option<Form>),
    Opening(OpeningWords),
    Pair(PairWords),
    World(WorldWords),
}

impl OpeningWords {
    /// What a line's first word says, if it may choose the form.
    pub fn first(word: &[u8]) -> Option<OpeningWords>
        ensures told { IfSome result (λ next. opening_so_far next ≡ word.now ∷ []) }
        ensures fits { IfSome result OpeningFits }
        ensures some { IfSome result (λ next. left_after opening_forms word.now ≡ opening_left next) }
        ensures alone { IfSome result (λ next. left_after pair_forms word.now ≡ []) }
        ensures none { IfNone result (left_after opening_forms word.now ≡ []) }
    {
        opening_of(word)
    }

    /// What the words say with the next one, if it may come.
    pub fn next(self, word: &[u8]) -> Option<OpeningWords>
        requires fits { OpeningFits self }
        ensures told { IfSome result (λ next. opening_so_far next ≡ opening_so_far self ++ (word.now ∷ [])) }
        ensures fits { IfSome result OpeningFits }
        ensures some { IfSome result (λ next. left_after (opening_left self) word.now ≡ opening_left next) }
        ensures none { IfNone result (left_after (opening_left self) word.now ≡ []) }
    {
        match self {
            OpeningWords::Pair => Some(OpeningWords::Whole(Form::Pair(protocol_in(word)?))),
            OpeningWords::Nodes => Some(OpeningWords::Whole(Form::World(nodes_in(word)?))),
            OpeningWords::Whole(_) => None,
        }
    }
}

impl PairWords {
    /// What a line's first word says, if an event of a pair begins so.
    pub fn first(word: &[u8]) -> Option<PairWords>
        ensures told { IfSome result (λ next. pair_so_far next ≡ word.now ∷ []) }
        ensures fits { IfSome result PairFits }
        ensures some { IfSome result (λ next. left_after pair_forms word.now ≡ pair_left next) }
        ensures none { IfNone result (left_after pair_forms word.now ≡ []) }
    {
        verb_of(word)
    }

    /// What the words say with the next one, if it may come.
    pub fn next(self, word: &[u8]) -> Option<PairWords>
        requires fits { PairFits self }
        ensures told { IfSome result (λ next. pair_so_far next ≡ pair_so_far self ++ (word.now ∷ [])) }
        ensures fits { IfSome result PairFits }
        ensures some { IfSome result (λ next. left_after (pair_left self) word.now ≡ pair_left next) }
        ensures none { IfNone result (left_after (pair_left self) word.now ≡ []) }
    {
        match self {
            PairWords::Act => Some(PairWords::Whole(PairEvent::Act(act_in(word)?))),
            PairWords::Tick => Some(PairWords::Whole(PairEvent::Tick(side_in(word)?))),
            PairWords::Choose => Some(PairWords::Whole(PairEvent::Choose(verdict_in(word)?))),
            PairWords::Deliver => Some(PairWords::Whole(PairEvent::Deliver(message_in(word)?))),
            PairWords::Whole(_) => None,
        }
    }
}

impl LineWords {
    /// What the words say with the next one, if it may come.
    pub fn next(self, word: &[u8]) -> Option<LineWords>
        requires fits { WordsFit self }
        ensures told { IfSome result (λ next. so_far next ≡ so_far self ++ (word.now ∷ [])) }
        ensures fits { IfSome result WordsFit }
        ensures stands { IfSome result (λ next. (chosen : Option Form) → WordsMayStand chosen self → WordsMayStand chosen next) }
        ensures some { IfSome result (λ next. left_after (forms_left self) word.now ≡ forms_left next) }
        ensures none { IfNone result (left_after (forms_left self) word.now ≡ []) }
    {
        match self {
            LineWords::Nothing(None) => first_of_all(word),
            LineWords::Nothing(Some(Form::Pair(_))) => Some(LineWords::Pair(PairWords::first(
                word,
            )?)),
            LineWords::Nothing(Some(Form::World(_))) => {
                Some(LineWords::World(WorldWords::first(word)?))
            }
            LineWords::Opening(words) => Some(LineWords::Opening(words.next(word)?)),
            LineWords::Pair(words) => Some(LineWords::Pair(words.next(word)?)),
            LineWords::World(words) => Some(LineWords::World(words.next(word)?)),
        }
    }

    /// What the line says that has these words, if no word is missing.
    #[tactic(auto, using(crate::proofs::FirstWords::no_form_is_empty))]
    pub fn reading(self) -> Option<Reading>
        requires fits { WordsFit self }
        ensures says { IfSome result (λ reading. (line : List ℕ) → words_of line ≡ so_far self → Says reading line) }
        ensures stands { IfSome result (λ reading. (chosen : Option Form) → WordsMayStand chosen self → MayStand chosen reading) }
        ensures none { IfNone result (some_ends (forms_left self) ≡ false) }
    {
        match self {
            LineWords::Opening(OpeningWords::Whole(form)) => Some(Reading::Opening(form)),
            LineWords::Pair(PairWords::Whole(event)) => Some(Reading::Pair(event)),
            LineWords::World(words) => Some(Reading::World(words.event()?)),
            _ => None,
        }
    }
}

// What a line's first word says, where the lines before say nothing.
#[tactic(auto, using(crate::proofs::FirstWords::left_of_both))]
fn first_of_all(word: &[u8]) -> Option<LineWords>
    ensures told { IfSome result (λ next. so_far next ≡ word.now ∷ []) }
    ensures fits { IfSome result WordsFit }
    ensures stands { IfSome result (WordsMayStand None) }
    ensures some { IfSome result (λ next. left_after (opening_forms ++ pair_forms) word.now ≡ forms_left next) }
    ensures none { IfNone result (left_after (opening_forms ++ pair_forms) word.now ≡ []) }
{
    if let Some(words) = OpeningWords::first(word) {
        return Some(LineWords::Opening(words));
    }
    Some(LineWords::Pair(PairWords::first(word)?))
}

// What the first word of a line that chooses the form says.
fn opening_of(word: &[u8]) -> Option<OpeningWords>
    ensures told { IfSome result (λ next. opening_so_far next ≡ word.now ∷ []) }
    ensures begins { IfSome result BeginsOpening }
    ensures none { IfNone result ((next : OpeningWords) → BeginsOpening next → opening_so_far next ≢ word.now ∷ []) }
{
    if word == b"pair".as_slice() {
        return Some(OpeningWords::Pair);
    }
    if word == b"nodes".as_slice() {
        return Some(OpeningWords::Nodes);
    }
    None
}

// What the first word of a pair's event says.
fn verb_of(word: &[u8]) -> Option<PairWords>
    ensures told { IfSome result (λ next. pair_so_far next ≡ word.now ∷ []) }
    ensures begins { IfSome result BeginsPair }
    ensures none { IfNone result ((next : PairWords) → BeginsPair next → pair_so_far next ≢ word.now ∷ []) }
{
    if word == b"act".as_slice() {
        return Some(PairWords::Act);
    }
    if word == b"tick".as_slice() {
        return Some(PairWords::Tick);
    }
    if word == b"choose".as_slice() {
        return Some(PairWords::Choose);
    }
    if word == b"complete".as_slice() {
        return Some(PairWords::Whole(PairEvent::Complete));
    }
    if word == b"deliver".as_slice() {
        return Some(PairWords::Deliver);
    }
    None
}
