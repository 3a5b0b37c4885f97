//! Reads a table of journals' files and of records from the standard input, a row a line, and prints each row with its answer
//! after ` => `. A row is one of these:
//!
//! - `scan FILE`. The answer is the listing of the file, whose lines end at `;`. The command that lists a journal, which reads
//!   the file in pieces of seven bytes, has to print the same;
//! - `load FILE`. The answer is how many records a load finds and what the file holds then; or the fault, and the file;
//! - `load stopped FILE`. The machine stops at each call of a load in turn, with each image of what it was about to write, and
//!   the file is loaded again. The answer is how many calls there are, and that of the second load, which has to be the same each
//!   time;
//! - `append FILE`. The answer is how many records are found, how many of three more are acknowledged, and the file;
//! - `append stopped FILE`. The machine stops at each call of that in turn. The answer is for each call, and for each of the
//!   images old, new, filled and half, how many records were acknowledged and, after `/`, how many of the three are loaded then.
//!   That load appends three more, which have to be found in their turn;
//! - `append failed FILE`. After a load each call in turn of three appends is to fail, which is taken back before the third. The
//!   answer is for each call what the appends answer, and how often the disk has failed;
//! - `record BYTES`. The answer is the record as a listing has it, its size, and its bytes where they are others; then the reference
//!   parameters of its endpoint. Or it is the fault;
//! - `cuts BYTES`. The answer is how many prefixes, from the empty one up to the first that isn't, end too early at their ends;
//! - `disk BYTES write PLACE BYTES`, or `disk BYTES append BYTES cut LENGTH`. The answer is what each image leaves of it where the
//!   machine stops at the write or the cut;
//! - `# ` and a heading, which has no answer.
//!
//! A backslash and two digits stand for a byte, as in `\0a`. In a row, not in an answer, braces stand for a piece so many times, as in
//! `{32*\00}`. All else stands for itself. A file of more than 500 bytes is shown as its length.
#![tactic(auto)]

mod answers;
mod appends;
mod disks;
mod listings;
mod loads;
mod records;
mod shown;

use std::io;

fn main(rt: HostRuntime) -> io::Result<()> {
    for line in rt.lines(rt.alloc()) {
        let line = line?;
        if line.starts_with("# ") {
            println!(rt; "{line}")?;
        } else {
            let answer = answers::answer(rt.alloc(), line.as_str())?;
            println!(rt; "{line} => {answer}")?;
        }
    }
    Ok(())
}
