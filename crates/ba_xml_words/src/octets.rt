//! UTF-8 (RFC 3629, section 4), byte by byte, without the two codes U+FFFE and U+FFFF that no text has.
ghost use Rattle.std.specs.Prelude.{◌≡◌};
ghost use Rattle.ba_xml_words.specs.inside.Octets.{octet_after, followed, third_last, last, lead, lead_of_three, lead_of_four};

use crate::faults::Reason;

/// What of a character is read.
#[derive(Clone, Copy, Debug, PartialEq, Eq)]
pub enum Octet {
    /// Nothing: the bytes so far are whole characters.
    Between,
    /// So many bytes are to come, any of 80 to BF.
    One,
    Two,
    Three,
    /// E0 is read, and A0 to BF may follow.
    AfterE0,
    /// ED is read, and 80 to 9F may follow.
    AfterED,
    /// EF is read.
    AfterEF,
    /// EF BF is read, and 80 to BD may follow.
    AfterEFBF,
    /// F0 is read, and 90 to BF may follow.
    AfterF0,
    /// F4 is read, and 80 to 8F may follow.
    AfterF4,
}

/// Where the characters stand after one byte more.
#[derive(Clone, Copy, Debug, PartialEq, Eq)]
pub enum Decoding {
    At(Octet),
    Broken(Reason),
}

/// Where the characters stand after this byte.
#[tactic(auto, unfolding(crate::specs::inside::Octets::octet_after))]
pub fn decode(octet: Octet, b: u8) -> Decoding
    ensures { result ≡ octet_after octet b }
{
    match octet {
        Octet::Between => first(b),
        Octet::One => next(b, 0x80, 0xBF, Octet::Between),
        Octet::Two => next(b, 0x80, 0xBF, Octet::One),
        Octet::Three => next(b, 0x80, 0xBF, Octet::Two),
        Octet::AfterE0 => next(b, 0xA0, 0xBF, Octet::One),
        Octet::AfterED => next(b, 0x80, 0x9F, Octet::One),
        Octet::AfterEF => after_ef(b),
        Octet::AfterEFBF => after_ef_bf(b),
        Octet::AfterF0 => next(b, 0x90, 0xBF, Octet::Two),
        Octet::AfterF4 => next(b, 0x80, 0x8F, Octet::Two),
    }
}

// The octet after a byte that has to lie between these.
fn next(b: u8, least: u8, most: u8, octet: Octet) -> Decoding
    ensures { result ≡ followed b least most octet }
{
    if b < least {
        return Decoding::Broken(Reason::NotUtf8);
    }
    if b > most {
        return Decoding::Broken(Reason::NotUtf8);
    }
    Decoding::At(octet)
}

fn after_ef(b: u8) -> Decoding
    ensures { result ≡ third_last b }
{
    if b == 0xBF {
        return Decoding::At(Octet::AfterEFBF);
    }
    next(b, 0x80, 0xBE, Octet::One)
}

fn after_ef_bf(b: u8) -> Decoding
    ensures { result ≡ last b }
{
    if b == 0xBE {
        return Decoding::Broken(Reason::Syntax);
    }
    if b == 0xBF {
        return Decoding::Broken(Reason::Syntax);
    }
    next(b, 0x80, 0xBD, Octet::Between)
}

#[tactic(auto, unfolding(crate::specs::inside::Octets::lead))]
fn first(b: u8) -> Decoding
    ensures { result ≡ lead b }
{
    if b < 0x80 {
        return Decoding::At(Octet::Between);
    }
    if b < 0xC2 {
        return Decoding::Broken(Reason::NotUtf8);
    }
    if b < 0xE0 {
        return Decoding::At(Octet::One);
    }
    if b < 0xF0 {
        return Decoding::At(of_three(b));
    }
    of_four(b)
}

fn of_three(b: u8) -> Octet
    ensures { result ≡ lead_of_three b }
{
    match b {
        0xE0 => Octet::AfterE0,
        0xED => Octet::AfterED,
        0xEF => Octet::AfterEF,
        _ => Octet::Two,
    }
}

fn of_four(b: u8) -> Decoding
    ensures { result ≡ lead_of_four b }
{
    if b == 0xF0 {
        return Decoding::At(Octet::AfterF0);
    }
    if b < 0xF4 {
        return Decoding::At(Octet::Three);
    }
    if b == 0xF4 {
        return Decoding::At(Octet::AfterF4);
    }
    Decoding::Broken(Reason::NotUtf8)
}
