//! What is still to come of some bytes.
ghost use Rattle.std.specs.Prelude.{◌≡◌, ◌∷◌, ◌↔◌, [], IsTrue, drop};
ghost use Rattle.ba_xml_words.specs.inside.Remaining.{met};

use ba_core::Octets;
use std::marker::Model;

/// The bytes that are still to come. Contracts see the list of these.
#[derive(Debug, Drop)]
pub struct Rest {
    bytes: Octets,
    at: usize,
}

/// What a byte is to the bytes that are still to come.
#[derive(Debug, Drop)]
pub enum Meeting {
    /// Another byte had to come.
    Wrong,
    /// More is to come.
    On(Rest),
    /// It was the last.
    Whole,
}

impl Model for Rest {
    ghost use Rattle.std.specs.Prelude.{ℕ, List, drop, length, ◌≤◌};

    ghost Value = { List ℕ };

    ghost view = { λ it. drop it.at it.bytes };
}

impl Rest {
    /// All of these bytes.
    pub fn of(bytes: Octets) -> Rest
        ensures { result ≡ bytes }
    {
        Rest { bytes, at: 0 }
    }

    /// The bytes themselves.
    pub fn as_slice(&self) -> &[u8]
        ensures { result.now ≡ self.now }
    {
        &self.bytes.as_slice()[self.at.min(self.bytes.len())..]
    }

    pub fn is_empty(&self) -> bool
        ensures { IsTrue result ↔ (self.now ≡ []) }
    {
        self.as_slice().is_empty()
    }

    /// Takes so many of them.
    pub fn skip(&mut self, count: usize)
        ensures { self.new ≡ drop count self.old }
    {
        let left = self.bytes.len().saturating_sub(self.at);
        if count < left {
            self.at += count;
        } else {
            self.at = self.bytes.len();
        }
    }

    /// What this byte is to them.
    pub fn meet(self, b: u8) -> Meeting
        ensures { result ≡ met self b }
    {
        let Rest { bytes, at } = self;
        if at >= bytes.len() {
            return Meeting::Wrong;
        }
        if bytes.as_slice()[at] != b {
            return Meeting::Wrong;
        }
        if at + 1 == bytes.len() {
            return Meeting::Whole;
        }
        Meeting::On(Rest { bytes, at: at + 1 })
    }
}
