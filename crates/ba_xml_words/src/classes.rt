//! The kinds of bytes that the grammar of XML tells apart.
ghost use Rattle.std.specs.Prelude.{◌≡◌};
ghost use Rattle.ba_xml_words.specs.Classes.{class_of, mark_of, is_space, is_first_letter, is_digit_or_dot};

/// What a byte is to the grammar, which sees each end of a line as one line feed.
#[derive(Clone, Copy, Debug, PartialEq, Eq)]
pub enum Class {
    Space,
    Less,
    Greater,
    Ampersand,
    Slash,
    Exclamation,
    Question,
    Hyphen,
    OpenBracket,
    CloseBracket,
    EqualsSign,
    Apostrophe,
    DoubleQuote,
    /// A letter or `_`, which may begin a name.
    Letter,
    /// A digit or `.`, which may stand in a name behind its first letter, as may `-`.
    Digit,
    Colon,
    /// Another character of ASCII.
    Plain,
    /// A byte of a character outside ASCII.
    High,
    /// A control character, which no text has.
    Control,
}

/// The class of a byte.
#[tactic(auto, unfolding(crate::specs::Classes::class_of))]
pub fn classify(b: u8) -> Class
    ensures { result ≡ class_of b }
{
    if is_space(b) {
        return Class::Space;
    }
    if b < 32 {
        return Class::Control;
    }
    if b >= 128 {
        return Class::High;
    }
    if is_first_letter(b) {
        return Class::Letter;
    }
    if is_digit_or_dot(b) {
        return Class::Digit;
    }
    mark(b)
}

/// White space (XML 1.0, production 3), as it stands once line ends are one line feed each.
pub fn is_space(b: u8) -> bool
    ensures { result ≡ is_space b }
{
    b == 32 || b == 9 || b == 10
}

/// Whether a plain name may begin so.
pub fn is_first_letter(b: u8) -> bool
    ensures { result ≡ is_first_letter b }
{
    b.is_ascii_alphabetic() || b == b'_'
}

fn is_digit_or_dot(b: u8) -> bool
    ensures { result ≡ is_digit_or_dot b }
{
    b.is_ascii_digit() || b == b'.'
}

// The class of a byte that is neither white space nor a letter, digit or dot, nor outside ASCII.
#[tactic(auto, unfolding(crate::specs::Classes::mark_of))]
fn mark(b: u8) -> Class
    ensures { result ≡ mark_of b }
{
    match b {
        b'<' => Class::Less,
        b'>' => Class::Greater,
        b'&' => Class::Ampersand,
        b'/' => Class::Slash,
        b'!' => Class::Exclamation,
        b'?' => Class::Question,
        b'-' => Class::Hyphen,
        b'[' => Class::OpenBracket,
        b']' => Class::CloseBracket,
        b'=' => Class::EqualsSign,
        b'\'' => Class::Apostrophe,
        b'"' => Class::DoubleQuote,
        b':' => Class::Colon,
        _ => Class::Plain,
    }
}
