//! The identifiers of a node's objects.
ghost use Rattle.std.specs.Prelude.{◌≡◌, ◌≢◌, ◌+◌, ◌*◌, ◌^◌, ◌<◌, ◌++◌, ℕ, IfSome, IfNone, codes, length, take, slice_index};
ghost use Rattle.std.specs.Fmt.{decimal};
ghost use Rattle.ba_core.specs.Numbers.{id_of, node_of, counter_of, code_part};
ghost use Rattle.ba_core.specs.Texts.{HasNoDot, id_text};

use crate::numbers::number_of;
use std::fmt;

/// The identifier of a scope, an end or a participant: its node's number and its counter there.
/// As the number of a message it holds the message's code too.
#[derive(Clone, Copy, Debug, PartialEq, Eq, PartialOrd, Ord, Hash)]
pub struct Id(pub u128);

impl Id {
    /// The identifier of a node's object.
    pub fn of(node: u32, counter: u64) -> Id
        ensures id { result.0 ≡ id_of node counter }
        ensures node { node_of result.0 ≡ node }
        ensures counter { counter_of result.0 ≡ counter }
        ensures code { code_part result.0 ≡ 0 }
    {
        Id(u128::from(node) * 18_446_744_073_709_551_616 + u128::from(counter))
    }

    /// The object's identifier that is written so: the number of its node, a dot and its counter, both in decimal.
    pub fn of_text(text: &[u8]) -> Option<Id>
        ensures some { IfSome result (λ id. text.now ≡ id_text id.0) }
        ensures object { IfSome result (λ id. code_part id.0 ≡ 0) }
        ensures none { IfNone result ((node counter : ℕ) → node < 2 ^ 32 → counter < 2 ^ 64
            → text.now ≢ decimal node ++ (codes "." ++ decimal counter)) }
    {
        match dot_in(text) {
            Some(dot) => object_of(&text[..dot], &text[dot + 1..]),
            None => None,
        }
    }

    /// The number of the node, in the bits 64 to 95.
    pub fn node(&self) -> u32
        ensures { result ≡ node_of self.now.0 }
    {
        (self.0 / 18_446_744_073_709_551_616 % 4_294_967_296) as u32
    }

    /// The counter, in the bits 0 to 63.
    pub fn counter(&self) -> u64
        ensures { result ≡ counter_of self.now.0 }
    {
        (self.0 % 18_446_744_073_709_551_616) as u64
    }

    /// The code of the message, in the bits 96 to 127; 0 in an object's identifier.
    pub fn code(&self) -> u32
        ensures { result ≡ code_part self.now.0 }
    {
        (self.0 / 79_228_162_514_264_337_593_543_950_336) as u32
    }
}

impl fmt::Display for Id {
    ghost use Rattle.ba_core.specs.Texts.{HasNoDot, id_text};
    ghost use Rattle.std.specs.Prelude.{Some};

    ghost output = { λ i. Some (id_text i.0) };

    fn fmt<W: fmt::Write>(&self, f: &mut fmt::Formatter<W>) -> fmt::Result {
        let node = self.node();
        let counter = self.counter();
        write!(f, "{node}.{counter}")
    }
}

// The place of the first dot.
fn dot_in(text: &[u8]) -> Option<usize>
    ensures within { IfSome result (λ n. n < length text.now) }
    ensures dot { IfSome result (λ n. slice_index text.now n ≡ 46) }
    ensures first { IfSome result (λ n. HasNoDot (take n text.now)) }
    ensures none { IfNone result (HasNoDot text.now) }
{
    for (index, byte) in text.iter().enumerate() {
        if *byte == b'.' {
            return Some(index);
        }
    }
    None
}

// The identifier of the object with this number of its node and this counter.
fn object_of(node: &[u8], counter: &[u8]) -> Option<Id>
    ensures node { IfSome result (λ id. node.now ≡ decimal (node_of id.0)) }
    ensures counter { IfSome result (λ id. counter.now ≡ decimal (counter_of id.0)) }
    ensures object { IfSome result (λ id. code_part id.0 ≡ 0) }
    ensures none { IfNone result ((n c : ℕ) → n < 2 ^ 32 → c < 2 ^ 64 → node.now ≡ decimal n → counter.now ≢ decimal c) }
{
    let (Some(node), Some(counter)) = (number_of(node), number_of(counter)) else {
        return None;
    };
    match u32::try_from(node) {
        Ok(node) => Some(Id::of(node, counter)),
        Err(_) => None,
    }
}
