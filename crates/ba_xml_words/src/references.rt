//! References to characters (XML 1.0, productions 66 and 68), byte by byte.
ghost use Rattle.std.specs.Prelude.{◌≡◌};
ghost use Rattle.std.specs.Char.{digit_value};
ghost use Rattle.ba_xml_words.specs.inside.References.{referred, entity_text, entity_code, started, lettered, named, hashed, number_on, made, is_legal, base_of, with_digit};

use crate::words::{Progress, reached};

/// The five entities that need no declaration (XML 1.0, section 4.6).
#[derive(Clone, Copy, Debug, PartialEq, Eq)]
pub enum Entity {
    Less,
    Greater,
    Ampersand,
    Apostrophe,
    Quote,
}

/// How the digits of a reference are read.
#[derive(Clone, Copy, Debug, PartialEq, Eq)]
pub enum Radix {
    Decimal,
    Hexadecimal,
}

/// What of a reference is read.
#[derive(Clone, Copy, Debug, PartialEq, Eq)]
pub enum Partial {
    /// `&`
    Nothing,
    /// `&a`, which two entities begin with.
    LetterA,
    /// So many bytes of an entity's name and its `;`.
    Named(Entity, usize),
    /// `&#`
    Hash,
    /// `&#x`
    HashX,
    /// Digits, with this value.
    Number(Radix, u32),
}

/// Where a reference stands after one byte more.
#[derive(Clone, Copy, Debug, PartialEq, Eq)]
pub enum Referred {
    /// No reference is continued so.
    Wrong,
    On(Partial),
    /// The reference is whole, and means this character.
    Meant(char),
}

/// Where a reference stands after this byte.
#[tactic(auto, unfolding(crate::specs::inside::References::referred))]
pub fn refer(partial: Partial, b: u8) -> Referred
    ensures { result ≡ referred partial b }
{
    match partial {
        Partial::Nothing => start(b),
        Partial::LetterA => second_letter(b),
        Partial::Named(entity, count) => name_on(entity, count, b),
        Partial::Hash => hash(b),
        Partial::HashX => digit(Radix::Hexadecimal, 0, b),
        Partial::Number(radix, value) => number(radix, value, b),
    }
}

fn start(b: u8) -> Referred
    ensures { result ≡ started b }
{
    match b {
        b'l' => Referred::On(Partial::Named(Entity::Less, 1)),
        b'g' => Referred::On(Partial::Named(Entity::Greater, 1)),
        b'q' => Referred::On(Partial::Named(Entity::Quote, 1)),
        b'a' => Referred::On(Partial::LetterA),
        b'#' => Referred::On(Partial::Hash),
        _ => Referred::Wrong,
    }
}

fn second_letter(b: u8) -> Referred
    ensures { result ≡ lettered b }
{
    match b {
        b'm' => Referred::On(Partial::Named(Entity::Ampersand, 2)),
        b'p' => Referred::On(Partial::Named(Entity::Apostrophe, 2)),
        _ => Referred::Wrong,
    }
}

fn name_on(entity: Entity, count: usize, b: u8) -> Referred
    ensures { result ≡ named entity count b }
{
    match reached(text_of(entity), count, b) {
        Progress::Nowhere => Referred::Wrong,
        Progress::Part(more) => Referred::On(Partial::Named(entity, more)),
        Progress::Whole => Referred::Meant(code_of(entity)),
    }
}

fn text_of(entity: Entity) -> &'static [u8]
    ensures { result.now ≡ entity_text entity }
{
    match entity {
        Entity::Less => b"lt;",
        Entity::Greater => b"gt;",
        Entity::Ampersand => b"amp;",
        Entity::Apostrophe => b"apos;",
        Entity::Quote => b"quot;",
    }
}

fn code_of(entity: Entity) -> char
    ensures { result ≡ entity_code entity }
{
    match entity {
        Entity::Less => '<',
        Entity::Greater => '>',
        Entity::Ampersand => '&',
        Entity::Apostrophe => '\'',
        Entity::Quote => '"',
    }
}

fn hash(b: u8) -> Referred
    ensures { result ≡ hashed b }
{
    if b == b'x' {
        return Referred::On(Partial::HashX);
    }
    digit(Radix::Decimal, 0, b)
}

fn number(radix: Radix, value: u32, b: u8) -> Referred
    ensures { result ≡ number_on radix value b }
{
    if b == b';' {
        return ended(value);
    }
    digit(radix, value, b)
}

// The character that the digits mean, if it is one of a text.
fn ended(value: u32) -> Referred
    ensures { result ≡ made value }
{
    if !legal(value) {
        return Referred::Wrong;
    }
    match char::from_u32(value) {
        Some(c) => Referred::Meant(c),
        None => Referred::Wrong,
    }
}

// One digit more. No number past 10FFFF has digits behind it that make it a character.
fn digit(radix: Radix, value: u32, b: u8) -> Referred
    ensures { result ≡ with_digit radix value b }
{
    let digit = value_of(b);
    let base = base(radix);
    if digit >= base {
        return Referred::Wrong;
    }
    let next = u64::from(value) * u64::from(base) + u64::from(digit);
    if next > 0x10_FFFF {
        return Referred::Wrong;
    }
    Referred::On(Partial::Number(radix, next as u32))
}

fn base(radix: Radix) -> u32
    ensures { result ≡ base_of radix }
{
    match radix {
        Radix::Decimal => 10,
        Radix::Hexadecimal => 16,
    }
}

// The value of a digit, and 36 for what is neither a digit nor a letter.
fn value_of(b: u8) -> u32
    ensures { result ≡ digit_value b }
{
    if b < b'0' {
        return 36;
    }
    if b <= b'9' {
        return u32::from(b - b'0');
    }
    if b < b'A' {
        return 36;
    }
    if b <= b'Z' {
        return u32::from(b - b'A') + 10;
    }
    if b < b'a' {
        return 36;
    }
    if b <= b'z' {
        return u32::from(b - b'a') + 10;
    }
    36
}

// Whether a text may have this character (XML 1.0, production 2).
fn legal(code: u32) -> bool
    ensures { result ≡ is_legal code }
{
    if code < 32 {
        return code == 9 || code == 10 || code == 13;
    }
    if code < 0xD800 {
        return true;
    }
    if code < 0xE000 {
        return false;
    }
    if code < 0xFFFE {
        return true;
    }
    if code < 0x1_0000 {
        return false;
    }
    code < 0x11_0000
}
