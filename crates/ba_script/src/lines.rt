//! The lines of a source, which is read block by block.
ghost use Rattle.std.specs.Prelude.{◌≡◌, ◌+◌, ◌-◌, ◌<◌, ◌≤◌, [], length, take, drop, slice_range, IfOk, IfSome, IfNone, true, false};
ghost use Rattle.std.specs.Io.KnownBytes.{IsAtEnd, Keeps, prepend_known};
ghost use Rattle.ba_ports.specs.Causes.{CountsFailures};
ghost use Rattle.ba_script.specs.inside.Lines.{HasNoFeed, EndsLine, IsNextLine, ReadsAfter};
ghost use Rattle.ba_script.specs.Scripts.{lookahead};

use ba_core::Memory;
use ba_ports::{Failed, Source};
use ba_script_forms::MOST_BYTES;
use std::alloc::Global;
use std::marker::Model;

// A read is of this many bytes at most.
const BLOCK: usize = 65_536;

// The room for a block after the beginning of a line.
const ROOM: usize = MOST_BYTES + BLOCK;

/// The bytes of a source that were read and not used yet. Contracts see them as the list of these bytes.
#[derive(Drop)]
pub struct Lines {
    room: Vec<u8>,
    at: usize,
    end: usize,
}

impl Model for Lines {
    ghost use Rattle.std.specs.Prelude.{ℕ, List, length, slice_range};
    ghost use Rattle.ba_script.specs.inside.Lines.{LieInRoom};

    ghost Value = { List ℕ };

    ghost view = { λ it. slice_range it.room.items it.at it.end };

    ghost invariant = { λ it. LieInRoom it.at it.end (length it.room.items) };
}

impl Lines {
    /// No bytes yet, and the room for a block.
    pub fn new(alloc: Global) -> Result<Lines, Memory>
        ensures { IfOk result (λ lines. lines ≡ []) }
    {
        match vec![in alloc; 0u8; ROOM] {
            Ok(room) => Ok(Lines {
                room,
                at: 0,
                end: 0,
            }),
            Err(_) => Err(Memory),
        }
    }

    /// The bytes at hand.
    pub fn bytes(&self) -> &[u8]
        ensures bytes { result.now ≡ self.now }
        ensures few { length self.now ≤ lookahead }
    {
        &self.room[self.at..self.end]
    }

    /// The first so many of them.
    pub fn first(&self, count: usize) -> &[u8]
        requires { count ≤ length self.now }
        ensures { result.now ≡ take count self.now }
    {
        &self.bytes()[..count]
    }

    /// Reads until the next line is at hand, and returns how many of the first bytes are this line, without
    /// its line feed. Of a line that is too long it returns a beginning that is too long already. None
    /// is the end of input.
    #[tactic(auto, using(crate::proofs::Feeds::next_line_ended, crate::proofs::Feeds::next_line_last))]
    pub fn find<S: Source>(&mut self, source: &mut S) -> Result<Option<usize>, Failed>
        ensures kept { Keeps (prepend_known self.old (S.left source.old)) (prepend_known self.new (S.left source.new)) }
        ensures few { length self.new ≤ lookahead }
        ensures within { IfOk result (λ found. IfSome found (λ n. n ≤ length self.new)) }
        ensures next { IfOk result (λ found. IfSome found (IsNextLine self.new (S.left source.new))) }
        ensures end { IfOk result (λ found. IfNone found ((self.new ≡ []) × IsAtEnd (S.left source.new))) }
        ensures cause { CountsFailures (S.faults source.old) (S.faults source.new) result }
    {
        'reading: loop {
            if let Some(count) = line_in(self.bytes()) {
                return Ok(Some(count));
            }
            if self.fill(source)? == 0 {
                return Ok(all_of(self.bytes()));
            }
        }
    }

    /// Whether neither a byte is at hand nor one comes.
    pub fn is_at_end<S: Source>(&mut self, source: &mut S) -> Result<bool, Failed>
        ensures kept { Keeps (prepend_known self.old (S.left source.old)) (prepend_known self.new (S.left source.new)) }
        ensures few { length self.new ≤ lookahead }
        ensures end { IfOk result (λ ended. ended ≡ true → (self.new ≡ []) × IsAtEnd (S.left source.new)) }
        ensures more { IfOk result (λ ended. ended ≡ false → 0 < length self.new) }
        ensures cause { CountsFailures (S.faults source.old) (S.faults source.new) result }
    {
        if !self.bytes().is_empty() {
            return Ok(false);
        }
        Ok(self.fill(source)? == 0)
    }

    /// Lets go of so many bytes and of the line feed after them.
    pub fn pass(&mut self, count: usize)
        requires { count ≤ length self.old }
        ensures { self.new ≡ drop (count + 1) self.old }
    {
        self.at = (self.at + count + 1).min(self.end);
    }

    // Reads the next block after the bytes at hand, which are less than a line. Reading nothing
    // is the end of input.
    fn fill<S: Source>(&mut self, source: &mut S) -> Result<usize, Failed>
        requires { length self.old ≤ MOST_BYTES }
        ensures kept { Keeps (prepend_known self.old (S.left source.old)) (prepend_known self.new (S.left source.new)) }
        ensures few { length self.new ≤ lookahead }
        ensures grown { IfOk result (λ n. length self.new ≡ length self.old + n) }
        ensures ended { IfOk result (λ n. n ≡ 0 → (self.new ≡ self.old) × IsAtEnd (S.left source.new)) }
        ensures cause { CountsFailures (S.faults source.old) (S.faults source.new) result }
    {
        let (at, end) = (self.at, self.end);
        self.at = 0;
        self.end = end - at;
        let count = read_block(source, self.room.as_mut_slice(), at, end)?;
        self.end += count;
        Ok(count)
    }
}

// Moves the bytes between these places to the beginning, and reads a block after them.
fn read_block<S: Source>(
    source: &mut S,
    room: &mut [u8],
    at: usize,
    end: usize,
) -> Result<usize, Failed>
    requires ordered { at ≤ end }
    requires within { end ≤ length room.old }
    requires space { end - at + BLOCK ≤ length room.old }
    ensures kept { take (end - at) room.new ≡ slice_range room.old at end }
    ensures bytes { ReadsAfter (S.left source.old) (S.left source.new) (end - at) room.new result }
    ensures cause { CountsFailures (S.faults source.old) (S.faults source.new) result }
{
    compact(room, at, end);
    read_after(source, room, end - at)
}

// Moves the bytes between these places to the beginning.
fn compact(room: &mut [u8], at: usize, end: usize)
    requires ordered { at ≤ end }
    requires within { end ≤ length room.old }
    ensures { take (end - at) room.new ≡ slice_range room.old at end }
{
    room.copy_within(at..end, 0);
}

// Reads a block after the first bytes of the room.
fn read_after<S: Source>(source: &mut S, room: &mut [u8], kept: usize) -> Result<usize, Failed>
    requires { kept + BLOCK ≤ length room.old }
    ensures kept { take kept room.new ≡ take kept room.old }
    ensures bytes { ReadsAfter (S.left source.old) (S.left source.new) kept room.new result }
    ensures cause { CountsFailures (S.faults source.old) (S.faults source.new) result }
{
    source.read(&mut room[kept..kept + BLOCK])
}

// How many of the first bytes are a line that a line feed ends, or of a line that is too long.
fn line_in(bytes: &[u8]) -> Option<usize>
    ensures some { IfSome result (EndsLine bytes.now) }
    ensures short { IfNone result (length bytes.now ≤ MOST_BYTES) }
    ensures clear { IfNone result (HasNoFeed bytes.now) }
{
    for (index, byte) in bytes.iter().enumerate() {
        if *byte == b'\n' {
            return Some(index);
        }
        if index == MOST_BYTES {
            return Some(index + 1);
        }
    }
    None
}

// How many bytes there are, if any.
fn all_of(bytes: &[u8]) -> Option<usize>
    ensures some { IfSome result (λ n. n ≡ length bytes.now) }
    ensures any { IfSome result (λ n. 0 < n) }
    ensures none { IfNone result (bytes.now ≡ []) }
{
    if bytes.is_empty() {
        return None;
    }
    Some(bytes.len())
}
