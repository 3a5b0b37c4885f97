//! Reads words from the standard input, a row a line, and prints each row with what it is read as after ` => `, or `-`. A row
//! is one of these:
//!
//! - `act`, `protocol`, `kind`, `verdict`, `code` or `state` and a word. The answer is the value's name in the code, and the
//!   word by which it is written;
//! - `notice` and the name of a notice. The answer is its code;
//! - `number` and digits. The answer is the number;
//! - `id` and an identifier. The answer is its node, its counter and its code, and how it is written;
//! - `object` and the numbers of a node and of a counter, or `message` and a number of up to 128 bits. The answer is the
//!   number, its node, its counter and its code;
//! - `octets` and words. The answer is the list of their bytes and a dot, its length, whether a copy equals it, its length
//!   when it has been cleared, and what the copy holds then;
//! - `# ` and a heading, which has no answer.
#![tactic(auto)]

mod answers;
mod numbers;
mod words;

use std::io;

fn main(rt: HostRuntime) -> io::Result<()> {
    for line in rt.lines(rt.alloc()) {
        let line = line?;
        if line.starts_with("# ") {
            println!(rt; "{line}")?;
        } else {
            let answer = answers::answer(rt.alloc(), line.as_str())?;
            println!(rt; "{line} => {answer}")?;
        }
    }
    Ok(())
}
