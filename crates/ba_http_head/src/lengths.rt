//! How a head says where the body ends.
ghost use Rattle.std.specs.Prelude.{◌≡◌, true, All, length, map, codes, option_map};
ghost use Rattle.httparse.specs.Spans.{IsHeaderWithin, header_bytes};
ghost use Rattle.std.specs.Str.Parse.{digits_value};
ghost use Rattle.ba_http_head.specs.Lengths.{length_of, values_of, first_of, is_length, is_chunked, is_digits, is_same_number, significant, counted_length};
ghost use Rattle.std.specs.List.{list_all};
ghost use Rattle.std.specs.Str.{all_ascii_digits};

use crate::faults::HttpFault;
use httparse::spans::HeaderSpan;

/// Bytes of a body, at most.
pub const MOST_BODY: u64 = 262_144;

/// Where a body ends, as its head says.
#[derive(Clone, Copy, Debug, PartialEq, Eq)]
pub enum Length {
    /// After so many bytes.
    Counted(u64),
    /// After the last chunk and its trailer.
    Chunked,
}

/// How the fields of a head say where the body ends, if they do.
pub fn length_in(prefix: &[u8], headers: &[HeaderSpan]) -> Result<Option<Length>, HttpFault>
    requires { All (IsHeaderWithin (length prefix.now)) headers.now }
    ensures { result ≡ length_of (map (header_bytes prefix.now) headers.now) }
{
    let length = first_value(prefix, headers, b"content-length");
    let coding = first_value(prefix, headers, b"transfer-encoding");
    match (length, coding) {
        (None, None) => Ok(None),
        (Some(first), None) => if are_lengths(prefix, headers, first) {
            counted_length(first)
        } else {
            Err(HttpFault::Length)
        },
        (None, Some(_)) => if are_chunked(prefix, headers) {
            Ok(Some(Length::Chunked))
        } else {
            Err(HttpFault::Length)
        },
        (Some(_), Some(_)) => Err(HttpFault::Length),
    }
}

// The value of the first field of this name.
fn first_value<'b>(prefix: &'b [u8], headers: &[HeaderSpan], name: &[u8]) -> Option<&'b [u8]>
    requires { All (IsHeaderWithin (length prefix.now)) headers.now }
    ensures { option_map (λ v. v.now) result ≡ first_of (values_of name.now (map (header_bytes prefix.now) headers.now)) }
{
    match headers {
        [] => None,
        [header, others @ ..] => if header.name.of(prefix).eq_ignore_ascii_case(name) {
            Some(header.value.of(prefix))
        } else {
            first_value(prefix, others, name)
        },
    }
}

// Each Content-Length is a number, and the same as this.
fn are_lengths(prefix: &[u8], headers: &[HeaderSpan], first: &[u8]) -> bool
    requires { All (IsHeaderWithin (length prefix.now)) headers.now }
    ensures { result ≡ list_all (is_length first.now) (values_of (codes "content-length") (map (header_bytes prefix.now) headers.now)) }
{
    match headers {
        [] => true,
        [header, others @ ..] => {
            let named = header
                .name
                .of(prefix)
                .eq_ignore_ascii_case(b"content-length");
            if named && !is_length(first, header.value.of(prefix)) {
                return false;
            }
            are_lengths(prefix, others, first)
        }
    }
}

// Each Transfer-Encoding is chunked.
fn are_chunked(prefix: &[u8], headers: &[HeaderSpan]) -> bool
    requires { All (IsHeaderWithin (length prefix.now)) headers.now }
    ensures { result ≡ list_all is_chunked (values_of (codes "transfer-encoding") (map (header_bytes prefix.now) headers.now)) }
{
    match headers {
        [] => true,
        [header, others @ ..] => {
            let named = header
                .name
                .of(prefix)
                .eq_ignore_ascii_case(b"transfer-encoding");
            if named && !header.value.of(prefix).eq_ignore_ascii_case(b"chunked") {
                return false;
            }
            are_chunked(prefix, others)
        }
    }
}

fn is_length(first: &[u8], value: &[u8]) -> bool
    ensures { result ≡ is_length first.now value.now }
{
    is_digits(value) && is_same_number(first, value)
}

// A body of the length that this text writes, which may be too long.
fn counted_length(text: &[u8]) -> Result<Option<Length>, HttpFault>
    requires { is_digits text.now ≡ true }
    ensures { result ≡ counted_length (digits_value 10 text.now) }
{
    let mut value: u64 = 0;
    for digit in text {
        value = value * 10 + (*digit - b'0') as u64;
        if value > MOST_BODY {
            return Err(HttpFault::TooLarge);
        }
    }
    Ok(Some(Length::Counted(value)))
}

fn is_digits(text: &[u8]) -> bool
    ensures { result ≡ is_digits text.now }
{
    !text.is_empty() && all_digits(text)
}

fn is_same_number(a: &[u8], b: &[u8]) -> bool
    ensures { result ≡ is_same_number a.now b.now }
{
    significant(a) == significant(b)
}

// The digits from the first that isn't 0.
fn significant(text: &[u8]) -> &[u8]
    ensures { result.now ≡ significant text.now }
{
    let mut at = 0;
    while at < text.len() && text[at] == b'0' {
        at += 1;
    }
    &text[at..]
}

fn all_digits(text: &[u8]) -> bool
    ensures { result ≡ all_ascii_digits text.now }
{
    for byte in text {
        if !byte.is_ascii_digit() {
            return false;
        }
    }
    true
}
