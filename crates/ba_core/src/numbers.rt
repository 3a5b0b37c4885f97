//! Numbers as scripts, control texts and command lines write them: decimal, without a sign or a leading zero.
ghost use Rattle.std.specs.Prelude.{◌≡◌, ◌≢◌, ℕ, ◌<◌, ◌^◌, IfSome, IfNone, slice_index};
ghost use Rattle.std.specs.Fmt.{decimal};

use std::str;

/// The number of at most 64 bits that is written by these digits alone. There is none where the
/// digits have a sign, a leading zero or another byte in them, and where the number is too large.
#[tactic(auto, using(crate::proofs::Decimals::digits_of_zero, crate::proofs::Decimals::digits_begin))]
pub fn number_of(digits: &[u8]) -> Option<u64>
    ensures some { IfSome result (λ n. (digits.now ≡ decimal n) × (n < 2 ^ 64)) }
    ensures none { IfNone result ((n : ℕ) → n < 2 ^ 64 → digits.now ≢ decimal n) }
{
    if digits == b"0".as_slice() {
        return Some(0);
    }
    match digits.first() {
        Some(digit) if *digit > b'0' => parsed(digits),
        _ => None,
    }
}

// The number above 0 that is written by these digits alone.
#[tactic(auto, using(crate::proofs::Decimals::parsed_digits, crate::proofs::Decimals::digits_are_text))]
fn parsed(digits: &[u8]) -> Option<u64>
    requires { 48 < slice_index digits.now 0 }
    ensures some { IfSome result (λ n. (digits.now ≡ decimal n) × (n < 2 ^ 64)) }
    ensures none { IfNone result ((n : ℕ) → n < 2 ^ 64 → digits.now ≢ decimal n) }
{
    let Ok(text) = str::from_utf8(digits) else {
        return None;
    };
    match text.parse::<u64>() {
        Ok(number) => Some(number),
        Err(_) => None,
    }
}
