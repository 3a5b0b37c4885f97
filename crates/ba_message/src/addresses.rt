//! Which addresses can be dialed: those of http with a host name or an IPv4 address.
ghost use Rattle.std.specs.Prelude.{◌≡◌, ◌^◌, ◌-◌, ◌≤◌, ◌↔◌, IsTrue, length, min, true};
ghost use Rattle.std.specs.List.{list_all, prefix_len};
ghost use Rattle.std.specs.Str.Parse.{digits_value};
ghost use Rattle.ba_message.specs.Addresses.{IsDialable, is_host_byte, is_path_byte, is_port_number};
ghost use Rattle.ba_message.specs.Dialing.{takes_host, takes_number, takes_path, takes_port};
ghost use Rattle.ba_tree.specs.Names.{is_digit};

use ba_tree::{digit, letter};

/// How many bytes an address that can be dialed has at most.
pub const MOST_ADDRESS_BYTES: usize = 1024;

/// How many bytes the host of such an address has at most.
pub const MOST_HOST_BYTES: usize = 255;

/// The greatest port.
pub const GREATEST_PORT: u32 = 65535;

/// Whether these bytes, at most 1,024, are `http://`, a host of 1 to 255 letters, digits, `.` and `-`, optionally
/// `:` and a port from 1 to 65535 without leading zero, and optionally `/` and visible ASCII without `#`.
pub fn dialable(address: &[u8]) -> bool
    ensures { IsTrue result ↔ IsDialable address.now }
{
    match address.strip_prefix(b"http://".as_slice()) {
        Some(rest) => address.len() <= MOST_ADDRESS_BYTES && host_follows(rest),
        None => false,
    }
}

fn host_follows(bytes: &[u8]) -> bool
    ensures { result ≡ takes_host bytes.now }
{
    let length = host_length(bytes);
    let rest = &bytes[length..];
    length >= 1 && length <= MOST_HOST_BYTES && port_follows(rest)
}

fn port_follows(bytes: &[u8]) -> bool
    ensures { result ≡ takes_port bytes.now }
{
    match bytes {
        [] => true,
        [first, rest @ ..] => {
            if *first == b':' {
                number_follows(rest)
            } else {
                path_follows(bytes)
            }
        }
    }
}

fn number_follows(bytes: &[u8]) -> bool
    ensures { result ≡ takes_number bytes.now }
{
    let length = digits_length(bytes);
    let rest = &bytes[length..];
    port_number(&bytes[..length]) && path_follows(rest)
}

fn path_follows(bytes: &[u8]) -> bool
    ensures { result ≡ takes_path bytes.now }
{
    match bytes {
        [] => true,
        [first, rest @ ..] => *first == b'/' && path_bytes(rest),
    }
}

fn path_bytes(bytes: &[u8]) -> bool
    ensures { result ≡ list_all is_path_byte bytes.now }
{
    bytes.iter().all(|byte| path_byte(*byte))
}

fn port_number(bytes: &[u8]) -> bool
    ensures { result ≡ is_port_number bytes.now }
{
    match bytes {
        [] => false,
        [first, rest @ ..] => {
            matches!(*first, b'1'..=b'9') && all_digits(rest) && number(bytes) <= GREATEST_PORT
        }
    }
}

fn all_digits(bytes: &[u8]) -> bool
    ensures { result ≡ list_all is_digit bytes.now }
{
    bytes.iter().all(|byte| digit(*byte))
}

/// The number that these digits write, at most the greatest u32.
fn number(digits: &[u8]) -> u32
    requires { list_all is_digit digits.now ≡ true }
    ensures { result ≡ min (digits_value 10 digits.now) (2 ^ 32 - 1) }
{
    let mut number: u32 = 0;
    for digit in digits {
        number = number
            .saturating_mul(10)
            .saturating_add(u32::from(digit.saturating_sub(b'0')));
    }
    number
}

fn host_length(bytes: &[u8]) -> usize
    ensures run { result ≡ prefix_len is_host_byte bytes.now }
    ensures within { result ≤ length bytes.now }
{
    let mut length = 0;
    while length < bytes.len() && host_byte(bytes[length]) {
        length += 1;
    }
    length
}

fn digits_length(bytes: &[u8]) -> usize
    ensures run { result ≡ prefix_len is_digit bytes.now }
    ensures within { result ≤ length bytes.now }
{
    let mut length = 0;
    while length < bytes.len() && digit(bytes[length]) {
        length += 1;
    }
    length
}

fn host_byte(byte: u8) -> bool
    ensures { result ≡ is_host_byte byte }
{
    letter(byte) || digit(byte) || byte == b'.' || byte == b'-'
}

fn path_byte(byte: u8) -> bool
    ensures { result ≡ is_path_byte byte }
{
    matches!(byte, 0x21..=0x7E) && byte != b'#'
}
