//! What a line of a script says.
ghost use Rattle.std.specs.Prelude.{◌≡◌, ◌+◌, ◌<◌, ◌≤◌, ◌↔◌, ℕ, List, IfOk, IfErr, IsTrue, Some, false, length, take, drop};
ghost use Rattle.ba_script_forms.specs.Grammar.{bad_word, some_ends, words_of};
ghost use Rattle.ba_script_forms.specs.Readings.{IsLine, IsRemark, Says, MayStand, bad_column, forms_at};
ghost use Rattle.ba_script_forms.specs.inside.LineWords.{FirstWord, WordsFit, WordsMayStand, forms_left, so_far};

use crate::line_words::LineWords;
use ba_core::Protocol;
use ba_pair::PairEvent;
use ba_world_events::Event;

/// A line has this many bytes at most.
pub const MOST_BYTES: usize = 256;

/// What a script plays.
#[derive(Clone, Copy, Debug, PartialEq, Eq)]
pub enum Form {
    /// One pair with this protocol.
    Pair(Protocol),
    /// A world of so many nodes, from 1 to 64.
    World(u32),
}

/// What one line of a script says.
#[derive(Clone, Copy, Debug, PartialEq, Eq)]
pub enum Reading {
    /// Nothing: the line is empty or a remark.
    Nothing,
    /// The script plays this.
    Opening(Form),
    /// An event of a pair.
    Pair(PairEvent),
    /// An event of a world.
    World(Event),
}

/// What the line says, where the lines before chose this form; None where they say nothing. Else the column, from 1,
/// of its first word that no form allows there, or one past its end where a word is missing; 257 where it is too long.
pub fn reading_of(line: &[u8], chosen: Option<Form>) -> Result<Reading, u32>
    ensures ok { IfOk result (λ reading. IsLine chosen reading line.now) }
    ensures err { IfErr result (λ column. bad_column chosen line.now ≡ Some column) }
{
    if line.len() > MOST_BYTES {
        return Err(257);
    }
    if is_remark(line) {
        return Ok(Reading::Nothing);
    }
    words_read(line, chosen)
}

// Whether the line is empty or a remark.
fn is_remark(line: &[u8]) -> bool
    ensures { IsTrue result ↔ IsRemark line.now }
{
    match line {
        [] => true,
        [byte, ..] => *byte == b'#',
    }
}

// What the line's words say, or the column of the first bad one.
fn words_read(line: &[u8], chosen: Option<Form>) -> Result<Reading, u32>
    requires { length line.now ≤ MOST_BYTES }
    ensures says { IfOk result (λ reading. Says reading line.now) }
    ensures stands { IfOk result (λ reading. MayStand chosen reading) }
    ensures err { IfErr result (λ column. bad_word (forms_at chosen) (words_of line.now) 1 ≡ Some column) }
{
    let mut told = LineWords::Nothing(chosen);
    let mut rest = line;
    let mut column = 1u32;
    'words: loop {
        let count = first_word(rest);
        let Some(next) = told.next(beginning(rest, count)) else {
            return Err(column);
        };
        if count == rest.len() {
            return whole(next, chosen, column + count as u32);
        }
        told = next;
        column += count as u32 + 1;
        rest = after(rest, count);
    }
}

// What a line says that has these words and ends before this column, where this form was chosen before.
fn whole(told: LineWords, chosen: Option<Form>, end: u32) -> Result<Reading, u32>
    requires fits { WordsFit told }
    requires stands { WordsMayStand chosen told }
    ensures says { IfOk result (λ reading. (line : List ℕ) → words_of line ≡ so_far told → Says reading line) }
    ensures stands { IfOk result (λ reading. MayStand chosen reading) }
    ensures missing { IfErr result (λ column. some_ends (forms_left told) ≡ false) }
    ensures end { IfErr result (λ column. column ≡ end) }
{
    match told.reading() {
        Some(reading) => Ok(reading),
        None => Err(end),
    }
}

// How many bytes the first word has.
#[tactic(auto, using(crate::proofs::Walks::word_ended, crate::proofs::Walks::word_last))]
fn first_word(bytes: &[u8]) -> usize
    ensures { FirstWord bytes.now result }
{
    for (index, byte) in bytes.iter().enumerate() {
        if *byte == b' ' {
            return index;
        }
    }
    bytes.len()
}

// The first so many bytes.
fn beginning(bytes: &[u8], count: usize) -> &[u8]
    requires { count ≤ length bytes.now }
    ensures { result.now ≡ take count bytes.now }
{
    &bytes[..count]
}

// The bytes after so many and one more.
#[tactic(auto, using(crate::proofs::Walks::all_after))]
fn after(bytes: &[u8], count: usize) -> &[u8]
    requires { count < length bytes.now }
    ensures { result.now ≡ drop (count + 1) bytes.now }
{
    &bytes[count + 1..]
}
