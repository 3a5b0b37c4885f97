//! Words of which each byte is fixed, read byte by byte.
ghost use Rattle.std.specs.Prelude.{◌≡◌};
ghost use Rattle.ba_xml_words.specs.inside.Words.{reached_at};

/// Where a fixed word stands after one byte more.
#[derive(Clone, Copy, Debug, PartialEq, Eq)]
pub enum Progress {
    /// The byte isn't the word's.
    Nowhere,
    /// So many of the word's bytes are read, and more are to come.
    Part(usize),
    /// The word ends with the byte.
    Whole,
}

/// Where the word stands after this byte, where so many of its bytes are read.
pub fn reached(word: &[u8], count: usize, b: u8) -> Progress
    ensures { result ≡ reached_at word.now count b }
{
    if count >= word.len() {
        return Progress::Nowhere;
    }
    if word[count] != b {
        return Progress::Nowhere;
    }
    if count + 1 == word.len() {
        return Progress::Whole;
    }
    Progress::Part(count + 1)
}
