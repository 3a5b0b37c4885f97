//! Runs of bytes that are taken at once: those that are put on as they stand, and those of an end tag's name.
ghost use Rattle.std.specs.Prelude.{◌≡◌, ◌≤◌, ◌<◌, ◌+◌, ◌-◌, true, length, take, List as Items, IfOk, OnOk};
ghost use Rattle.std.specs.List.{list_all};
ghost use Rattle.ba_xml_reader.specs.inside.Machine.{run, reading_at};
ghost use Rattle.ba_xml_reader.specs.inside.Readings.{Going};
ghost use Rattle.ba_xml_words.specs.inside.Remaining.{is_front};
ghost use Rattle.ba_xml_reader.specs.inside.Spans.{is_plain, is_letter, is_put, is_run, is_run_at, is_run_in, puts_in, puts_inside, with_span, with_span_at, with_span_in};

use crate::machine::{MOST_BYTES, Refusal, Scan};
use crate::pairs::Pair;
use crate::states::{Mode, Seen, State};
use ba_core::Memory;
use ba_xml_names::{Held, Level, Stack};
use ba_xml_words::{Octet, is_first_letter};
use std::alloc::Global;

/// Which bytes are put on as they stand.
#[derive(Clone, Copy, Debug, PartialEq, Eq)]
pub enum Puts {
    Nothing,
    /// Characters of ASCII, of which none means anything in content or in a value.
    Characters,
    /// Letters of ASCII and `_`.
    Letters,
}

/// How many bytes were taken, and why and where no text goes on with them, if none does.
pub struct Taken {
    pub count: usize,
    pub refusal: Option<Refusal>,
}

/// So many of the first bytes, all of which are put on, up to a number. No clause asks for the longest run: a shorter
/// one is only slower.
pub fn span_length(puts: Puts, bytes: &[u8], most: u64) -> usize
    ensures put { list_all (is_put puts) (take result bytes.now) ≡ true }
    ensures within { result ≤ length bytes.now }
    ensures most { result ≤ most }
{
    let mut length = 0;
    while length < bytes.len() && (length as u64) < most && is_put(puts, bytes[length]) {
        length += 1;
    }
    length
}

/// So many of the first bytes of both that are the same and plain, up to a number.
pub fn front_length(rest: &[u8], bytes: &[u8], most: u64) -> usize
    ensures plain { list_all is_plain (take result bytes.now) ≡ true }
    ensures front { is_front (take result bytes.now) rest.now ≡ true }
    ensures within { result ≤ length bytes.now }
    ensures most { result ≤ most }
{
    let mut length = 0;
    while length < bytes.len()
        && length < rest.len()
        && (length as u64) < most
        && rest[length] == bytes[length]
        && is_plain(bytes[length])
    {
        length += 1;
    }
    length
}

fn is_put(puts: Puts, b: u8) -> bool
    ensures { result ≡ is_put puts b }
{
    match puts {
        Puts::Nothing => false,
        Puts::Characters => is_plain(b),
        Puts::Letters => is_letter(b),
    }
}

fn is_plain(b: u8) -> bool
    ensures { result ≡ is_plain b }
{
    (!(b < 32) && b < 128)
        && !((b == b'<' || b == b'>') || ((b == b'&' || b == b']') || (b == b'"' || b == b'\'')))
}

fn is_letter(b: u8) -> bool
    ensures { result ≡ is_letter b }
{
    b < 128 && is_first_letter(b)
}

impl Scan {
    /// Takes the first of these bytes, or more of them. So many bytes were read before.
    pub fn read_on(&mut self, alloc: Global, taken: u64, bytes: &[u8]) -> Result<Taken, Memory>
        requires { 0 < length bytes.now }
        ensures read { IfOk result (λ taking. run (Going self.old taken) (take taking.count bytes.now) ≡ reading_at self.new (taken + taking.count) taking.refusal) }
        ensures some { IfOk result (λ taking. 0 < taking.count) }
        ensures within { IfOk result (λ taking. taking.count ≤ length bytes.now) }
    {
        let most = MOST_BYTES.saturating_sub(taken);
        let count = self.run_length(bytes, most);
        if count == 0 {
            return self.read_piece(alloc, taken, bytes, most);
        }
        self.put_span(&bytes[..count])?;
        Ok(Taken {
            count,
            refusal: None,
        })
    }

    // Takes a piece with which the bytes begin, or else the first of them.
    fn read_piece(
        &mut self,
        alloc: Global,
        taken: u64,
        bytes: &[u8],
        most: u64,
    ) -> Result<Taken, Memory>
        requires some { 0 < length bytes.now }
        requires most { most ≤ MOST_BYTES - taken }
        ensures read { IfOk result (λ taking. run (Going self.old taken) (take taking.count bytes.now) ≡ reading_at self.new (taken + taking.count) taking.refusal) }
        ensures some { IfOk result (λ taking. 0 < taking.count) }
        ensures within { IfOk result (λ taking. taking.count ≤ length bytes.now) }
    {
        if bytes[0] == b'/' {
            return self.read_slash(alloc, taken, bytes, most);
        }
        let count = self.take_piece(alloc, taken, bytes, most)?;
        if count == 0 {
            return self.read_byte(alloc, taken, bytes);
        }
        Ok(Taken {
            count,
            refusal: None,
        })
    }

    // Takes the end of an empty element's tag with which the bytes begin, or else the first of them.
    fn read_slash(
        &mut self,
        alloc: Global,
        taken: u64,
        bytes: &[u8],
        most: u64,
    ) -> Result<Taken, Memory>
        requires some { 0 < length bytes.now }
        requires most { most ≤ MOST_BYTES - taken }
        ensures read { IfOk result (λ taking. run (Going self.old taken) (take taking.count bytes.now) ≡ reading_at self.new (taken + taking.count) taking.refusal) }
        ensures some { IfOk result (λ taking. 0 < taking.count) }
        ensures within { IfOk result (λ taking. taking.count ≤ length bytes.now) }
    {
        let Some(count) = self.empty_end(bytes, most) else {
            return self.read_byte(alloc, taken, bytes);
        };
        let refusal = self.put_empty(alloc, taken)?;
        Ok(Taken { count, refusal })
    }

    // Takes the first byte alone.
    fn read_byte(&mut self, alloc: Global, taken: u64, bytes: &[u8]) -> Result<Taken, Memory>
        requires { 0 < length bytes.now }
        ensures read { IfOk result (λ taking. run (Going self.old taken) (take taking.count bytes.now) ≡ reading_at self.new (taken + taking.count) taking.refusal) }
        ensures some { IfOk result (λ taking. 0 < taking.count) }
        ensures within { IfOk result (λ taking. taking.count ≤ length bytes.now) }
    {
        let refusal = self.step(alloc, taken, bytes[0])?;
        Ok(Taken { count: 1, refusal })
    }

    // Takes a tag or the beginning of one, an attribute or a reference with which the bytes begin, if they do, and
    // answers how many bytes it has.
    fn take_piece(
        &mut self,
        alloc: Global,
        taken: u64,
        bytes: &[u8],
        most: u64,
    ) -> Result<usize, Memory>
        requires some { 0 < length bytes.now }
        requires most { most ≤ MOST_BYTES - taken }
        ensures read { IfOk result (λ count. 0 < count → run (Going self.old taken) (take count bytes.now) ≡ Going self.new (taken + count)) }
        ensures none { IfOk result (λ count. count ≡ 0 → self.new ≡ self.old) }
        ensures within { IfOk result (λ count. count ≤ length bytes.now) }
    {
        if bytes[0] == b'&' {
            return self.take_escape(taken, bytes, most);
        }
        if bytes[0] == b'<' {
            return self.take_tag(alloc, taken, bytes, most);
        }
        if is_letter(bytes[0]) {
            return self.take_pair(alloc, taken, bytes, most);
        }
        Ok(0)
    }

    fn take_tag(
        &mut self,
        alloc: Global,
        taken: u64,
        bytes: &[u8],
        most: u64,
    ) -> Result<usize, Memory>
        requires { most ≤ MOST_BYTES - taken }
        ensures read { IfOk result (λ count. 0 < count → run (Going self.old taken) (take count bytes.now) ≡ Going self.new (taken + count)) }
        ensures none { IfOk result (λ count. count ≡ 0 → self.new ≡ self.old) }
        ensures within { IfOk result (λ count. count ≤ length bytes.now) }
    {
        if bytes.len() > 1 && bytes[1] == b'/' {
            return self.take_ending(alloc, taken, bytes, most);
        }
        self.take_beginning(alloc, taken, bytes, most)
    }

    fn take_beginning(
        &mut self,
        alloc: Global,
        taken: u64,
        bytes: &[u8],
        most: u64,
    ) -> Result<usize, Memory>
        requires { most ≤ MOST_BYTES - taken }
        ensures read { IfOk result (λ count. 0 < count → run (Going self.old taken) (take count bytes.now) ≡ Going self.new (taken + count)) }
        ensures none { IfOk result (λ count. count ≡ 0 → self.new ≡ self.old) }
        ensures within { IfOk result (λ count. count ≤ length bytes.now) }
    {
        let Some(name) = self.beginning(bytes, most) else {
            return Ok(0);
        };
        self.put_beginning(alloc, &bytes[1..][..name])?;
        Ok(name + 2)
    }

    fn take_ending(
        &mut self,
        alloc: Global,
        taken: u64,
        bytes: &[u8],
        most: u64,
    ) -> Result<usize, Memory>
        requires { most ≤ MOST_BYTES - taken }
        ensures read { IfOk result (λ count. 0 < count → run (Going self.old taken) (take count bytes.now) ≡ Going self.new (taken + count)) }
        ensures none { IfOk result (λ count. count ≡ 0 → self.new ≡ self.old) }
        ensures within { IfOk result (λ count. count ≤ length bytes.now) }
    {
        let Some(name) = self.ending(bytes, most) else {
            return Ok(0);
        };
        self.put_ending(alloc)?;
        Ok(name + 3)
    }

    fn take_pair(
        &mut self,
        alloc: Global,
        taken: u64,
        bytes: &[u8],
        most: u64,
    ) -> Result<usize, Memory>
        requires { most ≤ MOST_BYTES - taken }
        ensures read { IfOk result (λ count. 0 < count → run (Going self.old taken) (take count bytes.now) ≡ Going self.new (taken + count)) }
        ensures none { IfOk result (λ count. count ≡ 0 → self.new ≡ self.old) }
        ensures within { IfOk result (λ count. count ≤ length bytes.now) }
    {
        let Some(Pair { name, value, .. }) = self.pair(bytes, most) else {
            return Ok(0);
        };
        self.put_pair(alloc, &bytes[..name], &bytes[name + 2..][..value])?;
        Ok(name + 2 + value + 1)
    }

    fn take_escape(&mut self, taken: u64, bytes: &[u8], most: u64) -> Result<usize, Memory>
        requires { most ≤ MOST_BYTES - taken }
        ensures read { IfOk result (λ count. 0 < count → run (Going self.old taken) (take count bytes.now) ≡ Going self.new (taken + count)) }
        ensures none { IfOk result (λ count. count ≡ 0 → self.new ≡ self.old) }
        ensures within { IfOk result (λ count. count ≤ length bytes.now) }
    {
        let Some(escape) = self.escape(bytes, most) else {
            return Ok(0);
        };
        self.put_meant(escape.byte())?;
        Ok(escape.as_slice().len())
    }

    // Puts these bytes on.
    fn put_span(&mut self, bytes: &[u8]) -> Result<(), Memory>
        ensures { OnOk result (self.new ≡ with_span self.old bytes.now) }
    {
        put_span_at(&mut self.state, bytes)
    }

    // How many of the first bytes are a run, up to a number.
    fn run_length(&self, bytes: &[u8], most: u64) -> usize
        ensures run { is_run self.now (take result bytes.now) ≡ true }
        ensures within { result ≤ length bytes.now }
        ensures most { result ≤ most }
    {
        if self.returned {
            return 0;
        }
        match self.octet {
            Octet::Between => run_length_at(&self.state, bytes, most),
            _ => 0,
        }
    }
}

fn run_length_at(state: &State, bytes: &[u8], most: u64) -> usize
    ensures run { is_run_at state.now (take result bytes.now) ≡ true }
    ensures within { result ≤ length bytes.now }
    ensures most { result ≤ most }
{
    match state {
        State::Refused(_) => 0,
        State::At(outer, _, mode) => run_length_in(outer, mode, bytes, most),
    }
}

fn run_length_in(outer: &Stack<Held<Level>>, mode: &Mode, bytes: &[u8], most: u64) -> usize
    ensures run { is_run_in outer.now mode.now (take result bytes.now) ≡ true }
    ensures within { result ≤ length bytes.now }
    ensures most { result ≤ most }
{
    match mode {
        Mode::EndName(rest) => front_length(rest.as_slice(), bytes, most),
        _ => span_length(puts_in(outer, mode), bytes, most),
    }
}

fn puts_in(outer: &Stack<Held<Level>>, mode: &Mode) -> Puts
    ensures { result ≡ puts_in outer.now mode.now }
{
    match mode {
        Mode::Inside(seen) => puts_inside(outer, *seen),
        // It always is one of these, which no invariant says.
        Mode::Value(_, _, quote) => {
            if *quote == b'"' || *quote == b'\'' {
                Puts::Characters
            } else {
                Puts::Nothing
            }
        }
        Mode::TagName(_) => Puts::Letters,
        Mode::AttributeName(_, _) => Puts::Letters,
        _ => Puts::Nothing,
    }
}

fn puts_inside(outer: &Stack<Held<Level>>, seen: Seen) -> Puts
    ensures { result ≡ puts_inside outer.now seen }
{
    if outer.len() == 0 {
        return Puts::Nothing;
    }
    match seen {
        Seen::Zero => Puts::Characters,
        _ => Puts::Nothing,
    }
}

// Puts these bytes on.
fn put_span_at(state: &mut State, bytes: &[u8]) -> Result<(), Memory>
    ensures { OnOk result (state.new ≡ with_span_at state.old bytes.now) }
{
    match state {
        State::Refused(_) => Ok(()),
        State::At(_, here, mode) => put_span_in(here, mode, bytes),
    }
}

fn put_span_in(here: &mut Held<Level>, mode: &mut Mode, bytes: &[u8]) -> Result<(), Memory>
    ensures { OnOk result ((outer : Items Level) → State.At outer here.new mode.new ≡ with_span_in outer here.old mode.old bytes.now) }
{
    match mode {
        Mode::Inside(_) => here.put_all(bytes),
        Mode::Value(_, attribute, _) => attribute.put_all(bytes),
        Mode::TagName(name) => name.put_all(bytes),
        Mode::AttributeName(_, name) => name.put_all(bytes),
        Mode::EndName(rest) => {
            rest.skip(bytes.len());
            if rest.is_empty() {
                *mode = Mode::EndSpace;
            }
            Ok(())
        }
        _ => Ok(()),
    }
}
