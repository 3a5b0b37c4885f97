//! Reads a table of messages of HTTP/1.1 from the standard input, a row a line, and prints each row with its answer after
//! ` => `. A row is one of these:
//!
//! - a text, which is read as a request. The answer is its method, its path and its body, or its refusal;
//! - `reply: ` and a text, which is read as a reply. The answer is its code and its body, or its refusal;
//! - `cuts: ` and a text, which is read as a request. The answer is how many of its prefixes, from the empty one up to the
//!   first that isn't, are refused as truncated;
//! - `reply cuts: ` and a text, which is read as a reply, likewise;
//! - `# ` and a heading, which has no answer.
//!
//! A refusal is 91 (no head goes on with the line at a place), 92 (no length, or more than one), 93 (a limit is passed), 94
//! (no body in chunks has the byte at a place) or 95 (the input ends inside). After `after` stands how many bytes were
//! taken, where the link gives one byte a read. Each row is also read with 7 bytes a read and with all at once, and the
//! answers have to be the same but for that number. A body stands in quotes, or as its size and the sum of its bytes where
//! it has more than 64.
//!
//! A backslash and two digits stand for a byte, as in `\0a`, and `\n` for CR LF. In a row, not in an answer, braces stand for
//! a piece so many times, as in `{32*a}`; a row has backslashes and braces only so. All else stands for itself.
#![tactic(auto)]

mod answers;
mod rows;

use std::io;

fn main(rt: HostRuntime) -> io::Result<()> {
    for line in rt.lines(rt.alloc()) {
        let line = line?;
        if line.starts_with("# ") {
            println!(rt; "{line}")?;
        } else {
            let answer = answers::answer(rt.alloc(), line.as_str())?;
            println!(rt; "{line} => {answer}")?;
        }
    }
    Ok(())
}
