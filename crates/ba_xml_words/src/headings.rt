//! The XML declaration (XML 1.0, productions 23 to 26, 32 and 80), byte by byte.
ghost use Rattle.std.specs.Prelude.{◌≡◌};
ghost use Rattle.std.specs.Char.{to_ascii_lowercase};
ghost use Rattle.ba_xml_words.specs.inside.Headings.{heading_after, target_after, blank_after, behind_after, item_begun, word_after, equals_after, quote_after, said_after, said_all_after, closed_after, item_text, setting_text, first_setting, setting_by, spelling, next_item, version_over, yes_unless};

use crate::classes::Class;
use crate::words::{Progress, reached};

/// What the XML declaration says one after another (XML 1.0, production 23).
#[derive(Clone, Copy, Debug, PartialEq, Eq)]
pub enum Item {
    Version,
    Encoding,
    Standalone,
}

/// What an item of the declaration may say.
#[derive(Clone, Copy, Debug, PartialEq, Eq)]
pub enum Setting {
    OneZero,
    Utf8,
    Yes,
    No,
}

/// What of the XML declaration is read.
#[derive(Clone, Copy, Debug, PartialEq, Eq)]
pub enum Heading {
    /// `<?` and so many bytes of `xml`.
    Target(usize),
    /// `xml`, and white space if true.
    Blank(bool),
    /// This item, and white space behind it if true.
    Behind(Item, bool),
    /// So many bytes of an item's name.
    Word(Item, usize),
    /// An item's name.
    Equals(Item),
    /// An item's name and `=`.
    Quote(Item),
    /// A quote, and so many bytes of what the item says.
    Said(Item, u8, Setting, usize),
    /// What the item says, whole.
    SaidAll(Item, u8),
    /// `?`
    Close,
}

/// Where the declaration stands after one byte more.
#[derive(Clone, Copy, Debug, PartialEq, Eq)]
pub enum Declared {
    Wrong,
    On(Heading),
    /// The declaration has ended.
    Whole,
}

/// Where the declaration stands after this byte.
#[tactic(auto, unfolding(crate::specs::inside::Headings::heading_after))]
pub fn declare(heading: Heading, b: u8, class: Class) -> Declared
    ensures { result ≡ heading_after heading b class }
{
    match heading {
        Heading::Target(count) => target(count, b),
        Heading::Blank(spaced) => blank(spaced, b, class),
        Heading::Behind(item, spaced) => behind(item, spaced, b, class),
        Heading::Word(item, count) => word(item, count, b),
        Heading::Equals(item) => equals(item, class),
        Heading::Quote(item) => quote(item, b, class),
        Heading::Said(item, quote, setting, count) => said(item, quote, setting, count, b),
        Heading::SaidAll(item, quote) => said_all(item, quote, b),
        Heading::Close => close(class),
    }
}

fn target(count: usize, b: u8) -> Declared
    ensures { result ≡ target_after count b }
{
    match reached(b"xml", count, b) {
        Progress::Nowhere => Declared::Wrong,
        Progress::Part(more) => Declared::On(Heading::Target(more)),
        Progress::Whole => Declared::On(Heading::Blank(false)),
    }
}

fn blank(spaced: bool, b: u8, class: Class) -> Declared
    ensures { result ≡ blank_after spaced b class }
{
    if let Class::Space = class {
        return Declared::On(Heading::Blank(true));
    }
    if !spaced {
        return Declared::Wrong;
    }
    begun(Item::Version, b)
}

// The item's name begins with this byte.
fn begun(item: Item, b: u8) -> Declared
    ensures { result ≡ item_begun item b }
{
    match reached(text_of(item), 0, b) {
        Progress::Nowhere => Declared::Wrong,
        Progress::Part(more) => Declared::On(Heading::Word(item, more)),
        Progress::Whole => Declared::Wrong,
    }
}

fn behind(item: Item, spaced: bool, b: u8, class: Class) -> Declared
    ensures { result ≡ behind_after item spaced b class }
{
    match class {
        Class::Space => Declared::On(Heading::Behind(item, true)),
        Class::Question => Declared::On(Heading::Close),
        _ => next_begun(item, spaced, b),
    }
}

// The name of a later item begins with this byte, behind white space.
fn next_begun(item: Item, spaced: bool, b: u8) -> Declared
    ensures { result ≡ next_item item spaced b }
{
    if !spaced {
        return Declared::Wrong;
    }
    match item {
        Item::Version => after_version(b),
        Item::Encoding => begun(Item::Standalone, b),
        Item::Standalone => Declared::Wrong,
    }
}

fn after_version(b: u8) -> Declared
    ensures { result ≡ version_over b }
{
    if b == b'e' {
        return begun(Item::Encoding, b);
    }
    begun(Item::Standalone, b)
}

fn word(item: Item, count: usize, b: u8) -> Declared
    ensures { result ≡ word_after item count b }
{
    match reached(text_of(item), count, b) {
        Progress::Nowhere => Declared::Wrong,
        Progress::Part(more) => Declared::On(Heading::Word(item, more)),
        Progress::Whole => Declared::On(Heading::Equals(item)),
    }
}

fn equals(item: Item, class: Class) -> Declared
    ensures { result ≡ equals_after item class }
{
    match class {
        Class::Space => Declared::On(Heading::Equals(item)),
        Class::EqualsSign => Declared::On(Heading::Quote(item)),
        _ => Declared::Wrong,
    }
}

fn quote(item: Item, b: u8, class: Class) -> Declared
    ensures { result ≡ quote_after item b class }
{
    match class {
        Class::Space => Declared::On(Heading::Quote(item)),
        Class::Apostrophe => Declared::On(Heading::Said(item, b, first_of(item), 0)),
        Class::DoubleQuote => Declared::On(Heading::Said(item, b, first_of(item), 0)),
        _ => Declared::Wrong,
    }
}

fn said(item: Item, quote: u8, setting: Setting, count: usize, b: u8) -> Declared
    ensures { result ≡ said_after item quote setting count b }
{
    let setting = chosen(setting, count, b);
    match reached(setting_of(setting), count, spelled(setting, b)) {
        Progress::Nowhere => Declared::Wrong,
        Progress::Part(more) => Declared::On(Heading::Said(item, quote, setting, more)),
        Progress::Whole => Declared::On(Heading::SaidAll(item, quote)),
    }
}

fn said_all(item: Item, quote: u8, b: u8) -> Declared
    ensures { result ≡ said_all_after item quote b }
{
    if b == quote {
        return Declared::On(Heading::Behind(item, false));
    }
    Declared::Wrong
}

fn close(class: Class) -> Declared
    ensures { result ≡ closed_after class }
{
    match class {
        Class::Greater => Declared::Whole,
        _ => Declared::Wrong,
    }
}

fn text_of(item: Item) -> &'static [u8]
    ensures { result.now ≡ item_text item }
{
    match item {
        Item::Version => b"version",
        Item::Encoding => b"encoding",
        Item::Standalone => b"standalone",
    }
}

fn setting_of(setting: Setting) -> &'static [u8]
    ensures { result.now ≡ setting_text setting }
{
    match setting {
        Setting::OneZero => b"1.0",
        Setting::Utf8 => b"utf-8",
        Setting::Yes => b"yes",
        Setting::No => b"no",
    }
}

fn first_of(item: Item) -> Setting
    ensures { result ≡ first_setting item }
{
    match item {
        Item::Version => Setting::OneZero,
        Item::Encoding => Setting::Utf8,
        Item::Standalone => Setting::Yes,
    }
}

// `no` begins otherwise than `yes`.
fn chosen(setting: Setting, count: usize, b: u8) -> Setting
    ensures { result ≡ setting_by setting count b }
{
    if count > 0 {
        return setting;
    }
    match setting {
        Setting::Yes => yes_or_no(b),
        other => other,
    }
}

fn yes_or_no(b: u8) -> Setting
    ensures { result ≡ yes_unless b }
{
    if b == b'n' {
        return Setting::No;
    }
    Setting::Yes
}

// The name of the encoding may be written in any case.
fn spelled(setting: Setting, b: u8) -> u8
    ensures { result ≡ spelling setting b }
{
    match setting {
        Setting::Utf8 => b.to_ascii_lowercase(),
        _ => b,
    }
}
