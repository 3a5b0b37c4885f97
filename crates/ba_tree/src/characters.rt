//! Which bytes are a text of XML or a plain name, as Extensible Markup Language 1.0 and Namespaces in XML 1.0 say.
ghost use Rattle.std.specs.Prelude.{◌≡◌};
ghost use Rattle.std.specs.List.{list_all};
ghost use Rattle.std.specs.Str.{chars};
ghost use Rattle.ba_tree.specs.Characters.{has_bare_ends, is_legal, is_legal_text, is_white};
ghost use Rattle.ba_tree.specs.Names.{begins_name, continues_name, is_digit, is_letter, is_plain_name};

/// Whether the bytes are UTF-8 of characters that a text of XML may have (XML 1.0, section 2.2).
pub fn legal_text(bytes: &[u8]) -> bool
    ensures { result ≡ is_legal_text bytes.now }
{
    match str::from_utf8(bytes) {
        Ok(text) => legal_characters(text),
        Err(_) => false,
    }
}

fn legal_characters(text: &str) -> bool
    ensures { result ≡ list_all is_legal (chars text.now) }
{
    text.chars().all(|c| legal_character(c))
}

/// Whether the bytes are a name without a prefix, in ASCII (Namespaces in XML 1.0, section 3).
pub fn plain_name(bytes: &[u8]) -> bool
    ensures { result ≡ is_plain_name bytes.now }
{
    match bytes {
        [] => false,
        [first, rest @ ..] => name_start(*first) && name_parts(rest),
    }
}

fn name_parts(bytes: &[u8]) -> bool
    ensures { result ≡ list_all continues_name bytes.now }
{
    bytes.iter().all(|byte| name_part(*byte))
}

/// Whether neither the first nor the last byte is white space (XML 1.0, section 2.3).
pub fn bare_ends(bytes: &[u8]) -> bool
    ensures { result ≡ has_bare_ends bytes.now }
{
    match bytes {
        [] => true,
        [first, ..] => !white_space(*first) && !white_space(bytes[bytes.len() - 1]),
    }
}

/// Whether a text of XML may have this character.
pub fn legal_character(c: char) -> bool
    ensures { result ≡ is_legal c }
{
    matches!(c, '\t' | '\n' | '\r' | '\u{20}'..='\u{D7FF}' | '\u{E000}'..='\u{FFFD}' | '\u{10000}'..='\u{10FFFF}')
}

/// Whether this byte is white space.
pub fn white_space(byte: u8) -> bool
    ensures { result ≡ is_white byte }
{
    matches!(byte, b' ' | b'\t' | b'\r' | b'\n')
}

/// Whether a plain name may begin with this byte.
pub fn name_start(byte: u8) -> bool
    ensures { result ≡ begins_name byte }
{
    letter(byte) || byte == b'_'
}

/// Whether a plain name may go on with this byte.
pub fn name_part(byte: u8) -> bool
    ensures { result ≡ continues_name byte }
{
    name_start(byte) || digit(byte) || byte == b'-' || byte == b'.'
}

/// Whether this is a letter of ASCII.
pub fn letter(byte: u8) -> bool
    ensures { result ≡ is_letter byte }
{
    matches!(byte, b'A'..=b'Z' | b'a'..=b'z')
}

/// Whether this is a digit of ASCII.
pub fn digit(byte: u8) -> bool
    ensures { result ≡ is_digit byte }
{
    matches!(byte, b'0'..=b'9')
}
