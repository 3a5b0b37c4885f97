//! Where a reading stands between two bytes.
ghost use Rattle.ba_xml_reader.specs.inside.States.{LeadsTo};

use ba_core::{List, Octets};
use ba_xml_names::{Held, Level, Opening, Stack, Tag};
use ba_xml_words::{Heading, Partial, RawAttribute, RawName, Reason, Rest};

/// How many marks of a kind, of which three in a row would end or forbid something, were just read.
#[derive(Clone, Copy, Debug, PartialEq, Eq)]
pub enum Seen {
    Zero,
    One,
    Two,
}

/// What of a piece is read.
#[derive(Debug, Drop)]
pub enum Mode {
    /// Nothing of the text.
    Begin,
    /// EF, the first byte of a byte order mark.
    MarkOne,
    /// EF BB.
    MarkTwo,
    /// The byte order mark.
    First,
    /// `<` as the text's first character.
    FirstOpen,
    Declaring(Heading),
    /// Whole pieces, of which the last ones are so many `]`.
    Inside(Seen),
    /// `<`
    Open,
    /// `<!`
    Exclaimed,
    /// `<!-`
    Hyphened,
    /// A comment that ends in so many `-`.
    Comment(Seen),
    /// `<![` and so many bytes of `CDATA[`.
    Bracketed(usize),
    /// A CDATA section, and so many `]` behind the bytes.
    Section(Octets, Seen),
    Reference(Partial),
    /// `<` and a part of a name.
    TagName(RawName),
    /// A start tag up to a name or a value, and white space behind if true.
    InTag(Held<Tag>, bool),
    AttributeName(Held<Tag>, RawName),
    /// An attribute's name, and perhaps white space.
    Equals(Held<Tag>, RawName),
    /// An attribute's name and `=`, and perhaps white space.
    Quote(Held<Tag>, RawName),
    /// A part of a value in this quote.
    Value(Held<Tag>, Held<RawAttribute>, u8),
    ValueReference(Held<Tag>, Held<RawAttribute>, u8, Partial),
    /// A start tag and `/`.
    Slashed(Held<Opening>),
    /// `</` and a part of the name.
    EndName(Rest),
    /// `</` and the name, and perhaps white space.
    EndSpace,
}

/// Where a reading stands between two bytes.
#[derive(Debug, Drop)]
pub enum State {
    /// No text begins so.
    Refused(Reason),
    /// The open elements, the innermost of them apart, and what of a piece is read.
    At(Stack<Held<Level>>, Held<Level>, Mode),
}

/// So much of a piece is read now, and a text may go on.
#[inline(always)]
pub fn go(mode: &mut Mode, next: Mode) -> Option<Reason>
    ensures { LeadsTo mode.new result (λ outer here. State.At outer here next) }
{
    *mode = next;
    None
}
