//! The fields of a record, read one after another.
ghost use Rattle.std.specs.Prelude.{◌≡◌, ◌≤◌, ◌↔◌, [], length, drop, IsTrue, IfOk, IfErr};
ghost use Rattle.std.specs.Int.{w16, w32, w64};
ghost use Rattle.ba_record.specs.Reading.{read, Explains, read_byte, read_front, read_number, read_string};
ghost use Rattle.ba_record.specs.Reading.{read_counter, read_node_number, read_base, read_kind, read_protocol, read_verdict, read_act, read_notice, read_from_1, read_option};

use crate::endpoints::base_is_dialable;
use ba_core::{Act, Kind, List, Notice, Octets, Protocol, Verdict};
use std::alloc::Global;

/// Why a field wasn't read.
#[derive(Clone, Copy, Debug, PartialEq, Eq)]
pub enum FieldFault {
    Memory,
    /// It is outside its range.
    Bad,
    /// The bytes end inside it.
    Short,
}

/// Bytes that are read from their front. After `Bad` they begin with the first byte of the bad field.
#[derive(Drop)]
pub struct Fields<'a> {
    pub alloc: Global,
    pub rest: &'a [u8],
}

impl<'a> Fields<'a> {
    /// All these bytes are still to be read.
    pub fn new(alloc: Global, bytes: &'a [u8]) -> Fields<'a>
        ensures { result.rest.now ≡ bytes.now }
    {
        Fields { alloc, rest: bytes }
    }

    /// How many bytes are still to be read.
    pub fn len(&self) -> usize
        ensures { result ≡ length self.now.rest.now }
    {
        self.rest.len()
    }

    pub fn is_empty(&self) -> bool
        ensures { IsTrue result ↔ (self.now.rest.now ≡ []) }
    {
        self.rest.is_empty()
    }

    /// Leaves out so many bytes.
    pub fn skip(&mut self, count: usize)
        requires { count ≤ length self.old.rest.now }
        ensures { self.new.rest.now ≡ drop count self.old.rest.now }
    {
        self.rest = &self.rest[count..];
    }

    // So many bytes.
    fn front(&mut self, count: usize) -> Result<&'a [u8], FieldFault>
        ensures ok { IfOk result (λ front. read_front count self.old.rest.now ≡ read front.now self.new.rest.now) }
        ensures fault { IfErr result (Explains (read_front count self.old.rest.now) self.new.rest.now) }
    {
        let Some((front, rest)) = self.rest.split_at_checked(count) else {
            return Err(FieldFault::Short);
        };
        self.rest = rest;
        Ok(front)
    }

    pub fn byte(&mut self) -> Result<u8, FieldFault>
        ensures ok { IfOk result (λ n. read_byte self.old.rest.now ≡ read n self.new.rest.now) }
        ensures fault { IfErr result (Explains (read_byte self.old.rest.now) self.new.rest.now) }
    {
        let Some((byte, rest)) = self.rest.split_first() else {
            return Err(FieldFault::Short);
        };
        self.rest = rest;
        Ok(*byte)
    }

    pub fn two_bytes(&mut self) -> Result<u16, FieldFault>
        ensures ok { IfOk result (λ n. read_number w16 self.old.rest.now ≡ read n self.new.rest.now) }
        ensures fault { IfErr result (Explains (read_number w16 self.old.rest.now) self.new.rest.now) }
    {
        let Some((digits, rest)) = self.rest.split_first_chunk::<2>() else {
            return Err(FieldFault::Short);
        };
        self.rest = rest;
        Ok(u16::from_le_bytes(*digits))
    }

    fn four_bytes(&mut self) -> Result<u32, FieldFault>
        ensures ok { IfOk result (λ n. read_number w32 self.old.rest.now ≡ read n self.new.rest.now) }
        ensures fault { IfErr result (Explains (read_number w32 self.old.rest.now) self.new.rest.now) }
    {
        let Some((digits, rest)) = self.rest.split_first_chunk::<4>() else {
            return Err(FieldFault::Short);
        };
        self.rest = rest;
        Ok(u32::from_le_bytes(*digits))
    }

    fn eight_bytes(&mut self) -> Result<u64, FieldFault>
        ensures ok { IfOk result (λ n. read_number w64 self.old.rest.now ≡ read n self.new.rest.now) }
        ensures fault { IfErr result (Explains (read_number w64 self.old.rest.now) self.new.rest.now) }
    {
        let Some((digits, rest)) = self.rest.split_first_chunk::<8>() else {
            return Err(FieldFault::Short);
        };
        self.rest = rest;
        Ok(u64::from_le_bytes(*digits))
    }

    /// A length of two bytes, and so many bytes.
    #[tactic(auto, using(crate::proofs::Onward::explained_onward))]
    pub fn text(&mut self) -> Result<&'a [u8], FieldFault>
        ensures ok { IfOk result (λ bytes. read_string self.old.rest.now ≡ read bytes.now self.new.rest.now) }
        ensures fault { IfErr result (Explains (read_string self.old.rest.now) self.new.rest.now) }
    {
        let count = self.two_bytes()?;
        self.front(count as usize)
    }

    /// A string, copied.
    pub fn string(&mut self) -> Result<Octets, FieldFault>
        ensures ok { IfOk result (λ bytes. read_string self.old.rest.now ≡ read bytes self.new.rest.now) }
        ensures fault { IfErr result (Explains (read_string self.old.rest.now) self.new.rest.now) }
    {
        let text = self.text()?;
        octets(self.alloc, text)
    }

    // The field that began where these bytes do is bad.
    pub fn back_to(&mut self, field: &'a [u8]) -> FieldFault
        ensures fault { result ≡ FieldFault.Bad }
        ensures rest { self.new.rest.now ≡ field.now }
    {
        self.rest = field;
        FieldFault::Bad
    }

    /// A counter.
    #[tactic(auto, using(crate::proofs::Onward::explained_onward))]
    pub fn counter(&mut self) -> Result<u64, FieldFault>
        ensures ok { IfOk result (λ n. read_counter self.old.rest.now ≡ read n self.new.rest.now) }
        ensures fault { IfErr result (Explains (read_counter self.old.rest.now) self.new.rest.now) }
    {
        let field = self.rest;
        match self.eight_bytes()? {
            0 => Err(self.back_to(field)),
            counter => Ok(counter),
        }
    }

    /// A node's number.
    #[tactic(auto, using(crate::proofs::Onward::explained_onward))]
    pub fn node_number(&mut self) -> Result<u32, FieldFault>
        ensures ok { IfOk result (λ n. read_node_number self.old.rest.now ≡ read n self.new.rest.now) }
        ensures fault { IfErr result (Explains (read_node_number self.old.rest.now) self.new.rest.now) }
    {
        let field = self.rest;
        match self.four_bytes()? {
            0 => Err(self.back_to(field)),
            number => Ok(number),
        }
    }

    /// The base of a node's addresses.
    #[tactic(auto, using(crate::proofs::Onward::explained_onward))]
    pub fn base(&mut self) -> Result<Octets, FieldFault>
        ensures ok { IfOk result (λ base. read_base self.old.rest.now ≡ read base self.new.rest.now) }
        ensures fault { IfErr result (Explains (read_base self.old.rest.now) self.new.rest.now) }
    {
        let field = self.rest;
        let base = self.text()?;
        if !base_is_dialable(base) {
            return Err(self.back_to(field));
        }
        octets(self.alloc, base)
    }

    /// A kind's code.
    #[tactic(auto, using(crate::proofs::Onward::explained_onward))]
    pub fn kind(&mut self) -> Result<Kind, FieldFault>
        ensures ok { IfOk result (λ kind. read_kind self.old.rest.now ≡ read kind self.new.rest.now) }
        ensures fault { IfErr result (Explains (read_kind self.old.rest.now) self.new.rest.now) }
    {
        let field = self.rest;
        match self.byte()? {
            1 => Ok(Kind::Atomic),
            2 => Ok(Kind::Mixed),
            _ => Err(self.back_to(field)),
        }
    }

    /// A notice's code, which is not that of Status.
    #[tactic(auto, using(crate::proofs::Onward::explained_onward))]
    pub fn notice(&mut self) -> Result<Notice, FieldFault>
        ensures ok { IfOk result (λ notice. read_notice self.old.rest.now ≡ read notice self.new.rest.now) }
        ensures fault { IfErr result (Explains (read_notice self.old.rest.now) self.new.rest.now) }
    {
        let field = self.rest;
        match self.byte()? {
            1 => Ok(Notice::Complete),
            2 => Ok(Notice::Close),
            3 => Ok(Notice::Cancel),
            4 => Ok(Notice::Compensate),
            5 => Ok(Notice::Failed),
            6 => Ok(Notice::Exited),
            7 => Ok(Notice::NotCompleted),
            8 => Ok(Notice::Completed),
            9 => Ok(Notice::Closed),
            10 => Ok(Notice::Canceled),
            11 => Ok(Notice::Compensated),
            12 => Ok(Notice::Fail),
            13 => Ok(Notice::Exit),
            14 => Ok(Notice::CannotComplete),
            15 => Ok(Notice::GetStatus),
            _ => Err(self.back_to(field)),
        }
    }

    /// A protocol's code.
    #[tactic(auto, using(crate::proofs::Onward::explained_onward))]
    pub fn protocol(&mut self) -> Result<Protocol, FieldFault>
        ensures ok { IfOk result (λ protocol. read_protocol self.old.rest.now ≡ read protocol self.new.rest.now) }
        ensures fault { IfErr result (Explains (read_protocol self.old.rest.now) self.new.rest.now) }
    {
        let field = self.rest;
        match self.byte()? {
            1 => Ok(Protocol::Pc),
            2 => Ok(Protocol::Cc),
            _ => Err(self.back_to(field)),
        }
    }

    /// A verdict's code.
    #[tactic(auto, using(crate::proofs::Onward::explained_onward))]
    pub fn verdict(&mut self) -> Result<Verdict, FieldFault>
        ensures ok { IfOk result (λ verdict. read_verdict self.old.rest.now ≡ read verdict self.new.rest.now) }
        ensures fault { IfErr result (Explains (read_verdict self.old.rest.now) self.new.rest.now) }
    {
        let field = self.rest;
        match self.byte()? {
            1 => Ok(Verdict::Close),
            2 => Ok(Verdict::Undo),
            _ => Err(self.back_to(field)),
        }
    }

    /// An act's code.
    #[tactic(auto, using(crate::proofs::Onward::explained_onward))]
    pub fn act(&mut self) -> Result<Act, FieldFault>
        ensures ok { IfOk result (λ act. read_act self.old.rest.now ≡ read act self.new.rest.now) }
        ensures fault { IfErr result (Explains (read_act self.old.rest.now) self.new.rest.now) }
    {
        let field = self.rest;
        match self.byte()? {
            1 => Ok(Act::Completed),
            2 => Ok(Act::Closed),
            3 => Ok(Act::Canceled),
            4 => Ok(Act::Compensated),
            5 => Ok(Act::Fail),
            6 => Ok(Act::Exit),
            7 => Ok(Act::CannotComplete),
            _ => Err(self.back_to(field)),
        }
    }

    /// A number of one byte from 1 to the greatest.
    #[tactic(auto, using(crate::proofs::Onward::explained_onward))]
    pub fn from_1(&mut self, greatest: u8) -> Result<u8, FieldFault>
        ensures ok { IfOk result (λ n. read_from_1 greatest self.old.rest.now ≡ read n self.new.rest.now) }
        ensures fault { IfErr result (Explains (read_from_1 greatest self.old.rest.now) self.new.rest.now) }
    {
        let field = self.rest;
        let number = self.byte()?;
        if number == 0 || number > greatest {
            return Err(self.back_to(field));
        }
        Ok(number)
    }

    /// An option of a moment in milliseconds.
    #[tactic(auto, using(crate::proofs::Onward::explained_onward))]
    pub fn deadline(&mut self) -> Result<Option<u64>, FieldFault>
        ensures ok { IfOk result (λ deadline. read_option (read_number w64) self.old.rest.now ≡ read deadline self.new.rest.now) }
        ensures fault { IfErr result (Explains (read_option (read_number w64) self.old.rest.now) self.new.rest.now) }
    {
        let field = self.rest;
        match self.byte()? {
            0 => Ok(None),
            1 => Ok(Some(self.eight_bytes()?)),
            _ => Err(self.back_to(field)),
        }
    }
}

// A copy of the bytes.
pub fn octets(alloc: Global, bytes: &[u8]) -> Result<Octets, FieldFault>
    ensures ok { IfOk result (λ octets. octets ≡ bytes.now) }
    ensures fault { IfErr result (λ fault. fault ≡ FieldFault.Memory) }
{
    match Vec::from_slice(alloc, bytes) {
        Ok(items) => Ok(List::of(items)),
        Err(_) => Err(FieldFault::Memory),
    }
}
