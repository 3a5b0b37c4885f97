//! Reads a table of texts of XML from the standard input, a row a line, and prints each row with its answer behind
//! ` => `. A row is one of these:
//!
//! - a text, which is read. The answer is its tree, or the number of the reason why it is refused and the place, as
//!   `2 at 5`. A tree is a name, `name=value;` for each attribute and, behind `|`, its content; a text in it stands
//!   in quotes, and a namespace in braces;
//! - `write: ` and a text. The answer is the one text of its tree, which is put behind other bytes and then read back
//!   as the same tree; or `unwritable`;
//! - `size: ` and a text. The answer is the length of the one text, which is made in the same way;
//! - `cuts: ` and a text. The answer is how many of its fronts, from the empty one up to the first that isn't, are
//!   refused as truncated at their ends;
//! - `tree: ` and a tree as answers show it, without namespaces, which may be one that no text has. The answer is that
//!   of `size: `;
//! - `# ` and a heading, which has no answer.
//!
//! A backslash and two digits stand for a byte, as in `\0a`. In a row, not in an answer, braces stand for a piece so
//! many times, as in `{32*<a>}`; a row has backslashes and braces only so. All else stands for itself. Any other answer
//! shows a mistake of the row, the reader or the writer.
#![tactic(auto)]

mod answers;
mod rows;
mod shown;

use std::io;

fn main(rt: HostRuntime) -> io::Result<()> {
    for line in rt.lines(rt.alloc()) {
        let line = line?;
        if line.starts_with("# ") {
            println!(rt; "{line}")?;
        } else {
            let answer = answers::answer(rt.alloc(), line.as_str())?;
            println!(rt; "{line} => {answer}")?;
        }
    }
    Ok(())
}
