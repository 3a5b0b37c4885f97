//! The forms of texts in elements.
ghost use Rattle.std.specs.Prelude.{◌≡◌, ℕ, ◌+◌, ◌-◌, ◌^◌, min, true, None, Some, Option, IfOk, MatchOption, length};
ghost use Rattle.std.specs.List.{list_all, position};
ghost use Rattle.std.specs.Str.Parse.{digits_value};
ghost use Rattle.ba_tree.specs.Names.{is_digit};
ghost use Rattle.ba_soap_shapes.specs.Forms.{is_colon, is_number, is_qname, is_there, local_part, plain_look, has_form, mismatch_unless};

use crate::elements::text_of;
use crate::shapes::{Form, Misfit, mismatch};
use ba_core::Memory;
use ba_tree::{Tree, digit, plain_name};
use std::alloc::Global;

/// The greatest number that an element holds.
pub const MOST_NUMBER: u64 = 4_294_967_295;

/// A form of an element that holds a text, or of one that isn't looked into.
#[derive(Clone, Copy, Debug, PartialEq, Eq)]
pub enum Plain {
    /// A text that isn't empty.
    Text,
    /// Decimal digits of at most the greatest u32.
    Number,
    /// A name, which may have a prefix.
    Qname,
    /// Whatever it is, it is skipped.
    Skipped,
}

fn colon(bytes: &[u8]) -> Option<usize>
    ensures { result ≡ position is_colon bytes.now }
{
    bytes.iter().position(|byte| *byte == b':')
}

/// Whether the bytes are a name, or two that are joined by a colon.
pub fn is_qname(bytes: &[u8]) -> bool
    ensures { result ≡ is_qname bytes.now }
{
    match colon(bytes) {
        None => plain_name(bytes),
        Some(at) => plain_name(&bytes[..at]) && plain_name(&bytes[at + 1..]),
    }
}

/// The part of a name after its colon, if it has one, and else the whole.
pub fn local_part(bytes: &[u8]) -> &[u8]
    ensures { result.now ≡ local_part bytes.now }
{
    match colon(bytes) {
        None => bytes,
        Some(at) => &bytes[at + 1..],
    }
}

impl Form for Plain {
    ghost look = { plain_look };

    fn misfit(&self, alloc: Global, tree: &Tree, number: u32) -> Result<Option<Misfit>, Memory> {
        if *self == Plain::Skipped {
            return Ok(None);
        }
        let text = text_of(alloc, tree)?;
        Ok(text_misfit(*self, text.as_slice(), number))
    }
}

fn text_misfit(form: Plain, text: &[u8], number: u32) -> Option<Misfit>
    ensures { result ≡ mismatch_unless (has_form form text.now) number }
{
    let holds = match form {
        Plain::Text => !text.is_empty(),
        Plain::Number => is_number(text),
        Plain::Qname => is_qname(text),
        Plain::Skipped => true,
    };
    if holds { None } else { Some(mismatch(number)) }
}

/// Whether the bytes are digits of a number that is at most the greatest u32.
pub fn is_number(bytes: &[u8]) -> bool
    ensures { result ≡ is_number bytes.now }
{
    !bytes.is_empty() && are_digits(bytes) && number_of(bytes) <= MOST_NUMBER
}

fn are_digits(bytes: &[u8]) -> bool
    ensures { result ≡ list_all is_digit bytes.now }
{
    bytes.iter().all(|byte| digit(*byte))
}

/// The number that these digits write, at most the greatest u64.
pub fn number_of(digits: &[u8]) -> u64
    requires { list_all is_digit digits.now ≡ true }
    ensures { result ≡ min (digits_value 10 digits.now) (2 ^ 64 - 1) }
{
    let mut number: u64 = 0;
    for digit in digits {
        number = number
            .saturating_mul(10)
            .saturating_add(u64::from(digit.saturating_sub(b'0')));
    }
    number
}
